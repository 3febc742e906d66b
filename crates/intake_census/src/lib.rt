// The census fed from the intake is that of a linearization of its history (document 02, U13). All of it stands in specs/.
#![tactic(auto)]
