// What a job sheet comes to, before it touches a graph. What each case means stands in specs/. Follows docs/RULES.md,
// "The room of a sheet".
#![tactic(auto)]

// The jobs, the arcs and the steps of a full run; the first entry turned away, from 0, with its number and place; or
// where the sheet cannot be read.
#[derive(Clone, Copy)]
pub enum Room {
    Fits { jobs: u32, arcs: u32, steps: u32 },
    TurnedAway { entry: u32, number: u32, place: u32 },
    Unreadable { number: u32, at: usize },
}
