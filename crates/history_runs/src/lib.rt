// Runs on fresh areas, computed, beside the theorem of demand 3; the proofs are all there is.
#![tactic(auto)]
