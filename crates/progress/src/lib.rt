// Every call ends within a number of its own accepted steps that the sizes give, and every step is counted. All of it stands in specs/.
#![tactic(auto)]
