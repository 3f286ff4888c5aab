// No code: valid tables, the one written form, and what a write answers, as definitions in specs/.
#![tactic(auto)]
