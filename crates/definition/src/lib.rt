// Definitions and proofs only: the build of paper 01, both runs, and the law that they agree.
#![tactic(auto)]
