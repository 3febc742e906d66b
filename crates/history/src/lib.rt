// Histories of calls on a first-in first-out queue, and what makes one linearizable. All of it stands in specs/.
#![tactic(auto)]
