// What the consumer's caller receives is what every linearization says. All of it stands in specs/.
#![tactic(auto)]
