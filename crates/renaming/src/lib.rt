// Two runs of the same calls whose claims take other records answer alike. All of it stands in specs/.
#![tactic(auto)]
