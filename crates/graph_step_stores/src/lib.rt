// What the steps of an add and of a finish store in the tables. Follows docs/RULES.md, "Steps" and "Tables and their
// measures".
#![tactic(auto)]

pub mod adding;
pub mod entering;
pub mod finishing;
