// Theorems alone: what calls run whole answer and leave, for all tables. specs/ states it, proofs/ shows it.
#![tactic(auto)]
