// Theorems alone: specs/ has that an add in one go is its post and steps.
#![tactic(auto)]
