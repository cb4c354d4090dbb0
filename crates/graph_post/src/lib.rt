// The posts of an add and of a finish. Follows docs/RULES.md, "Steps" and "Turned-away calls".
#![tactic(auto)]

pub mod add;
pub mod finish;
