// Tests as the binary digits of one word, and where its lowest set digit stands. All of it stands in specs/.
#![tactic(auto)]
