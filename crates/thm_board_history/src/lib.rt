// That the board accounts for every job that entered stands in specs/.
#![tactic(auto)]
