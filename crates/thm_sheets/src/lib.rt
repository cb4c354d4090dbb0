// Theorems alone: specs/ says what a sheet's bytes mean and what is written; wrong readers and writers, each refuted.
#![tactic(auto)]
