// Definitions and proofs only: the run of a tree over links from row to row (M-103), and that it is the definition's.
#![tactic(auto)]
