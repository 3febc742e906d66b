// The simulation: every rule of the intake keeps the records in order and moves the position machine. All of it stands in specs/.
#![tactic(auto)]
