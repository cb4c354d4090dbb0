// Calls of an idle worker run in one go. What each does stands in specs/.
#![tactic(auto)]

// Where the look-ups of an add ended: all names have a job, one has none, or a walk met a damaged word. The place is
// the name's in the list.
#[derive(Clone, Copy)]
pub enum LookUps {
    All,
    Unknown { place: u32 },
    Broken { place: u32 },
}

// What an add is to do: it is refused with nothing changed, turned away with its worker idle, stopped half done in its
// look-ups, at a place of its list or at its own name after them, or its job enters.
#[derive(Clone, Copy)]
pub enum AddPlan {
    Reject { number: u32 },
    TurnAway { number: u32, place: u32 },
    Stop { place: u32 },
    EnterJob,
}
