// No code: what is proved of the definitions of form, together with those of reading, as theorems in specs/.
#![tactic(auto)]
