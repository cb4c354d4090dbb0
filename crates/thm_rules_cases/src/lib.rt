// The ways in which an item can end by the rules stand in specs/.
#![tactic(auto)]
