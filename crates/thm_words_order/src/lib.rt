// Which job a get takes, by how many pairs and which words, stands in specs/: theorems for all tables, damaged ones
// too.
#![tactic(auto)]
