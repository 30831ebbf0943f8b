// The definitions of the analysis (specs/) with their laws (proofs/).
#![tactic(auto)]
