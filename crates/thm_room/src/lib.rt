// Theorems only (specs/): what a sheet comes to is what its adds answer, and enough room is enough.
#![tactic(auto)]
