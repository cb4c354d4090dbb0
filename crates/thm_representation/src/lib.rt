// How the words of the tables stand for the graph of the rules stands in specs/.
#![tactic(auto)]
