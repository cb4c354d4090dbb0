// That a call reads and changes no word past what its sizes need stands in specs/: theorems for all tables, damaged
// ones too.
#![tactic(auto)]
