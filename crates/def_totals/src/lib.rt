// The board of totals, and a row of records: how many jobs stand under each label, and the sum of their minutes.
// docs/RULES.md, "The board and the day list"; specs/Board.antt has the definitions.
#![tactic(auto)]

ghost use Rattle.std.specs.Prelude.{◌≡◌};
ghost use Rattle.def_totals.specs.Told.{told_totals};

use def_numbers::{ACCEPTED, Refusal};

#[repr(C)]
#[derive(Clone, Copy)]
pub struct JobRecord {
    pub label: u32,
    pub class: u32,
}

// Jobs and minutes are indexed by label: unexecuted, executing, finished.
#[derive(Clone, Copy, Default)]
pub struct Board {
    pub jobs: [u32; 3],
    pub minutes: [u32; 3],
}

// A board as C has it. The number is 0 for a row that is served. Else it is the refusal's, and all else is 0.
#[repr(C)]
#[derive(Clone, Copy)]
pub struct Totals {
    pub number: u32,
    pub jobs: [u32; 3],
    pub minutes: [u32; 3],
}

impl From<Result<Board, Refusal>> for Totals {
    ghost from_gives = { λ board told. told ≡ told_totals board };

    fn from(board: Result<Board, Refusal>) -> Totals {
        match board {
            Ok(board) => {
                let jobs = board.jobs;
                let minutes = board.minutes;
                Totals {
                    number: ACCEPTED,
                    jobs,
                    minutes,
                }
            }
            Err(refusal) => Totals {
                number: refusal.into(),
                jobs: [0; 3],
                minutes: [0; 3],
            },
        }
    }
}
