// By which numbers each call is refused, exactly when, and what each refusal leaves stands in specs/: theorems for all
// tables, damaged ones too.
#![tactic(auto)]
