// Theorems about captures: specs/ says them, proofs/ proves them.
#![tactic(auto)]
