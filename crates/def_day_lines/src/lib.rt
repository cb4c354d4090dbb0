// How the day list answers. What it prints stands in specs/.
#![tactic(auto)]

// The bytes written, or a refusal: 1 for a number of workers off its limits, 15 for an output that is too short.
#[derive(Clone, Copy)]
pub enum DayAnswer {
    Printed { bytes: usize },
    Refused { number: u32 },
}
