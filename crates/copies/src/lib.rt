// Every call answers for a copy as for the file that it is a copy of: definitions (specs/) and theorems (proofs/); no code.
#![tactic(auto)]
