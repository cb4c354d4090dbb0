// That the stores of every plan keep the tables standing for the graph of the rules is shown in specs/.
#![tactic(auto)]
