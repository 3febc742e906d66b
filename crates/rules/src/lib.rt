// The store and the rules of the intake, as definitions with their laws. All of it stands in specs/.
#![tactic(auto)]
