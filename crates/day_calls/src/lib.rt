// The calls of a round of the day list: every worker gets, then each holder finishes. Follows docs/RULES.md, "The board
// and the day list".
#![tactic(auto)]

pub mod finishes;
pub mod gets;
