// What a call run whole does to the tables' words stands in specs/.
#![tactic(auto)]
