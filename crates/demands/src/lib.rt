// Demands 1 to 3 and tightness as theorems, in specs/: no code.
#![tactic(auto)]
