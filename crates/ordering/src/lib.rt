// The ordering theorem: every history of the intake is linearizable. All of it stands in specs/.
#![tactic(auto)]
