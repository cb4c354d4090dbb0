// What laying out and a load leave, and that nothing else reads or writes the stored minutes, stands in specs/:
// theorems for all tables, damaged ones too.
#![tactic(auto)]
