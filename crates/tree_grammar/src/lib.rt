// Definitions and proofs only: which rows are a tree (M-100).
#![tactic(auto)]
