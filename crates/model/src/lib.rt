// The queue without pointers: records are known by their places, and entries by their positions. All of it stands in specs/.
#![tactic(auto)]
