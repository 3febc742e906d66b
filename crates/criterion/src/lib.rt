// When a history of a first-in first-out queue is linearizable, one event at a time. All of it stands in specs/.
#![tactic(auto)]
