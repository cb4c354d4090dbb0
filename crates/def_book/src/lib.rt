// The reference model stands in specs/.
#![tactic(auto)]
