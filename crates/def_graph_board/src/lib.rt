// What the board answers of the graph's own jobs stands in specs/.
#![tactic(auto)]
