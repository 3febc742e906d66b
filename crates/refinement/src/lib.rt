// From the rules to the code: what holds of every call by its contract. All of it stands in specs/.
#![tactic(auto)]
