// Every number that the header names, each once: refusals, limits, sizes, and the kinds of answers, with the values of
// specs/Numbers. Follows docs/RULES.md ("Turned-away calls", "Tables and their measures"), docs/SHEETS.md and
// docs/NUMBERS.md.
#![tactic(auto)]

mod refusal;

pub use refusal::Refusal;

// ---- refusals; the list starts at 1, so 0 says that nothing was refused

// Not refused.
pub const ACCEPTED: u32 = 0;

// A size off its limits or not the one laid out, or a table too short.
pub const WRONG_SIZE: u32 = 1;

pub const NO_SUCH_WORKER: u32 = 2;

// The worker's call is half done.
pub const HALF_DONE: u32 = 3;

// A step while the worker is idle.
pub const WORKER_IDLE: u32 = 4;

pub const WRONG_ARGUMENTS: u32 = 5;

// A look-up finds no such name.
pub const UNKNOWN_NAME: u32 = 6;

// Entering finds the name present.
pub const NAME_PRESENT: u32 = 7;

// Entering finds no room for the job or its arcs.
pub const TABLES_FULL: u32 = 8;

// Damaged words.
pub const DAMAGED: u32 = 9;

// A get while holding a job.
pub const ALREADY_HOLDING: u32 = 10;

// A finish of a name that the worker does not hold.
pub const NOT_HELD: u32 = 11;

// The sheet ends inside an entry.
pub const CUT: u32 = 12;

// A wrong map byte.
pub const WRONG_MAP: u32 = 13;

// A field's value off its limits.
pub const WRONG_VALUE: u32 = 14;

// The output lacks room.
pub const NO_ROOM: u32 = 15;

pub const TOO_MANY_ENTRIES: u32 = 16;

// Minutes that do not rise, or are off their limits.
pub const WRONG_MINUTES: u32 = 17;

// A load after a job has entered.
pub const JOBS_ENTERED: u32 = 18;

// "good for a spoiled job".
pub const GOOD_FOR_SPOILED: u32 = 19;

// ---- limits and sizes

// "R jobs 1 to 4,096; A arcs 0 to 32,768; b bucket bits 1 to 8; P workers 1 to 16".
pub const MOST_JOBS: u32 = 4096;

pub const MOST_ARCS: u32 = 32768;

pub const MOST_BITS: u32 = 8;

pub const MOST_WORKERS: u32 = 16;

// "The list of at most 32 names".
pub const MOST_NAMES: u32 = 32;

// "class 0 to 15": the highest, and how many there are.
pub const MOST_CLASS: u32 = 15;

pub const CLASSES: usize = 16;

// A day's minutes: no class has more.
pub const MOST_MINUTES: u32 = 1440;

// "grower 0 to 65,535".
pub const MOST_GROWER: u32 = 65535;

// "more than 4,096 board records" are refused.
pub const MOST_RECORDS: usize = 4096;

// The words of a row, which holds an entry: four numbers and the places of the names.
pub const ENTRY_WORDS: usize = 36;

// The most bytes of an entry: the map byte, a name, a full list, a class and a grower.
pub const MOST_ENTRY_BYTES: usize = 137;

// "One call takes up to 64 entries".
pub const MOST_ENTRIES: u32 = 64;

// "a sheet of at most 32,768 bytes".
pub const MOST_DAY_SHEET: usize = 32768;

// The most bytes that the day list prints with two workers.
pub const MOST_DAY_LIST: usize = 97979;

// "(R 256, A 1,024, b 4, P 2)".
pub const DAY_JOBS: u32 = 256;

pub const DAY_ARCS: u32 = 1024;

pub const DAY_BITS: u32 = 4;

// Bytes of a name, a list's count, a class and a grower.
pub const NAME_BYTES: usize = 4;

pub const COUNT_BYTES: usize = 1;

pub const CLASS_BYTES: usize = 1;

pub const GROWER_BYTES: usize = 2;

// ---- the kinds of answers of a call or a step of the graph

#[derive(Clone, Copy, Debug, PartialEq, Eq)]
pub enum Kind {
    Refused = 0,
    LaidOut = 1,
    Posted = 2,
    GoingOn = 3,
    Ended = 4,
    NoneReady = 5,
    HandedOut = 6,
    Loaded = 7,
    // Damage stopped a whole call half done.
    Stopped = 8,
}

// ---- the call half done: none, an add, or a finish

#[derive(Clone, Copy, Debug, PartialEq, Eq)]
pub enum Call {
    None = 0,
    Add = 1,
    Finish = 2,
}
