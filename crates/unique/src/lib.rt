// One answer only, of the contracts themselves, as theorems, in specs/: no code.
#![tactic(auto)]
