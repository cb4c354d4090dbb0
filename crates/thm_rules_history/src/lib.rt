// What is claimed of every history by the rules stands in specs/.
#![tactic(auto)]
