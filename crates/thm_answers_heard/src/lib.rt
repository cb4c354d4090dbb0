// Theorems alone: specs/ says that what C is told of a whole call or of a sheet can be read back.
#![tactic(auto)]
