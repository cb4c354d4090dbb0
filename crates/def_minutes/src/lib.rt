// The minutes of a job by its class, and whether a table of minutes may stand in place of the fixed ones. Follows
// docs/RULES.md, "Tables and their measures" ("Minutes by class") and "A district's minutes".
#![tactic(auto)]

ghost use Rattle.std.specs.Prelude.{◌≡◌};
ghost use Rattle.def_minutes.specs.Minutes.{minutes_in, fixed_minutes};
ghost use Rattle.def_minutes.specs.Rising.{is_rising};
ghost use Rattle.def_minutes.specs.Served.{served_if, told_minutes};

use def_numbers::{ACCEPTED, CLASSES, MOST_MINUTES, Refusal};

// The minutes of all classes, as C has them. The number is 0 where they are served. Else it is the refusal's, and all
// minutes are 0.
#[repr(C)]
#[derive(Clone, Copy)]
pub struct GraphMinutes {
    pub number: u32,
    pub minutes: [u32; 16],
}

impl From<Result<[u32; 16], Refusal>> for GraphMinutes {
    ghost from_gives = { λ minutes told. told ≡ told_minutes minutes };

    fn from(minutes: Result<[u32; 16], Refusal>) -> GraphMinutes {
        match minutes {
            Ok(minutes) => GraphMinutes {
                number: ACCEPTED,
                minutes,
            },
            Err(refusal) => GraphMinutes {
                number: refusal.into(),
                minutes: [0; 16],
            },
        }
    }
}

const MINUTES: [u32; CLASSES] = [
    1, 2, 3, 5, 8, 10, 15, 20, 30, 45, 60, 90, 120, 180, 240, 480,
];

// The fixed minutes of a class. No class has 0 minutes, so past class 15 the answer 0 says that there is no such class.
#[tactic(auto, unfolding(crate::specs::Minutes::minutes_in, crate::specs::Minutes::fixed_minutes))]
pub fn minutes(class: u32) -> u32
    ensures { result ≡ minutes_in fixed_minutes class }
{
    MINUTES.get(class as usize).copied().unwrap_or(0)
}

// The fixed minutes of all classes.
#[tactic(auto, unfolding(crate::specs::Minutes::fixed_minutes))]
pub fn fixed() -> [u32; 16]
    ensures { result ≡ fixed_minutes }
{
    MINUTES
}

// Whether there is a value for each class, and they rise strictly, each from 1 to a day's minutes.
pub fn is_rising(table: &[u32]) -> bool
    ensures { result ≡ is_rising table.now }
{
    if table.len() != CLASSES {
        return false;
    }
    let mut before = 0;
    for &value in table {
        if value <= before || MOST_MINUTES < value {
            return false;
        }
        before = value;
    }
    true
}

// The minutes of a table, if they rise.
pub fn rising(table: &[u32]) -> Option<[u32; 16]>
    ensures { result ≡ served_if (is_rising table.now) table.now }
{
    if is_rising(table) {
        table.try_into().ok()
    } else {
        None
    }
}
