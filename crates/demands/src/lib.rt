// The three demands as theorems: definitions and proofs only.
#![tactic(auto)]
