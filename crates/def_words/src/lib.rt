// What a call plans to do with the tables: it first reads and judges, and stores only once nothing is left to refuse.
// What each plan means stands in specs/.
#![tactic(auto)]

use def_terms::HandOut;

// Where a bucket's walk ended: at the job of the name, at the bucket's end, or at a damaged word.
#[derive(Clone, Copy)]
pub enum Found {
    At { job: u32 },
    Missing,
    Damaged,
}

// A cell of the queue that is filled or emptied, and what moves in the index: the last filled slot, and the slot where
// the cell that moves comes to rest.
#[derive(Clone, Copy)]
pub struct Seat {
    pub cell: u32,
    pub last: u32,
    pub slot: u32,
}

// Where a job is put in the queue and the index, or that a word read there is damaged.
#[derive(Clone, Copy)]
pub enum Seating {
    Seated { seat: Seat },
    Unseated,
}

// What a step is to do.
#[derive(Clone, Copy)]
pub enum Plan {
    // A refusal that changes nothing.
    Refuse {
        number: u32,
    },
    // 6, 7 or 8: the call ends, and the worker is idle.
    Quit {
        number: u32,
        place: u32,
    },
    // A look-up found its name.
    Pass,
    // The job enters at the head of its bucket, before the job `head`, and its arcs are reserved from `arc` on.
    Enter {
        job: u32,
        bucket: u32,
        head: u32,
        arc: u32,
    },
    // A link found a finished prerequisite of this outcome.
    Tally {
        outcome: u32,
    },
    // A link appends an arc to an empty list, or after the last of a list.
    LinkFirst {
        prerequisite: u32,
        arc: u32,
        job: u32,
    },
    LinkAfter {
        prerequisite: u32,
        last: u32,
        arc: u32,
        job: u32,
    },
    // The job's remaining count becomes `count`; where it is queued, in the seat.
    Settle {
        job: u32,
        count: u32,
    },
    SettleQueue {
        job: u32,
        count: u32,
        seat: Seat,
    },
    // The held job is finished; `first` is its first arc or none.
    Mark {
        job: u32,
        first: u32,
    },
    // The dependent's remaining count becomes `count`; `next` is the next arc or none.
    Notify {
        job: u32,
        count: u32,
        next: u32,
    },
    NotifyQueue {
        job: u32,
        count: u32,
        next: u32,
        seat: Seat,
    },
}

// What a get is to do.
#[derive(Clone, Copy)]
pub enum GetPlan {
    RefuseGet { number: u32 },
    Wait,
    Take { out: HandOut, seat: Seat },
}
