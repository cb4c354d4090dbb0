// The history theorem: demand 3 on the words stands in specs/.
#![tactic(auto)]
