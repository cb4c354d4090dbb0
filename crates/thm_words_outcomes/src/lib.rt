// Who writes outcomes, marks and notes, and what a finish's post does with its outcome, stands in specs/: theorems for
// all tables, damaged ones too.
#![tactic(auto)]
