// One object's edits stay its own, as a theorem, in specs/: no code.
#![tactic(auto)]
