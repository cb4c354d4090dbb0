// What a look-up, the entering, a link and the mark of a finish do, exactly, stands in specs/: theorems for all tables,
// damaged ones too.
#![tactic(auto)]
