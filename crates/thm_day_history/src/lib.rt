// The history of a day: what always holds of the day list stands in specs/.
#![tactic(auto)]
