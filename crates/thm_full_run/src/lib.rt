// Theorems only (specs/): a full run of n jobs and a arcs takes 4n + 3a steps, and wherever there is room there is one.
#![tactic(auto)]
