// What the arguments of an add mean, and which are wrong, stands in specs/.
#![tactic(auto)]
