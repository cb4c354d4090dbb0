// That calls run whole end, and what they leave, by the rules, stands in specs/.
#![tactic(auto)]
