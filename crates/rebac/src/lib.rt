// The mathematics of document 000 as definitions (specs/) and theorems (proofs/); no code.
#![tactic(auto)]
