// Theorems alone: specs/ has what is shown besides the promises. Nobody need read it to believe them.
#![tactic(auto)]
