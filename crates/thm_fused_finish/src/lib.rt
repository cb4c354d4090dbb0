// Theorems alone: specs/ has that a finish in one go is its post and steps.
#![tactic(auto)]
