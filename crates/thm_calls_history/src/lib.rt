// Theorems alone: proofs/Theorem.antt has demand 3 of lists of calls.
#![tactic(auto)]
