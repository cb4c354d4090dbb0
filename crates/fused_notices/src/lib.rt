// The notices of a finish in one go, and how the finish ends after them. Follows docs/RULES.md, "Steps".
#![tactic(auto)]

pub mod closing;
pub mod notices;
