// Document 01's worked cases as rows of lists (specs/) and the theorems over them (proofs/); no code.
#![tactic(auto)]
