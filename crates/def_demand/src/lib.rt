// What demand 3 claims of a history stands in specs/.
#![tactic(auto)]
