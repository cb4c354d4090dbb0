// An add's job: its entry and its links, in one go. Follows docs/RULES.md, "Steps".
#![tactic(auto)]

pub mod entering;
pub mod links;
