// What is proved of the plain book's spoiled jobs stands in specs/.
#![tactic(auto)]
