// How an add that is run in one go ends: its job settles, it is turned away, or a damaged word stops it. Follows
// docs/RULES.md, "Steps" and "Turned-away calls".
#![tactic(auto)]

pub mod settling;
pub mod stops;
