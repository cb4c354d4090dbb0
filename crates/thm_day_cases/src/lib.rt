// What the day list prints for given sheets stands in specs/.
#![tactic(auto)]
