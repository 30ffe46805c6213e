// Lists as definitions (specs/) and laws (proofs/); no code.
#![tactic(auto)]
