// Theorems alone: specs/ has the laws of a worker's words that are stored once.
#![tactic(auto)]
