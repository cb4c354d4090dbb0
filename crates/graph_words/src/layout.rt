// The numbers of the tables' layout, with the values that specs/Layout of `def_words` gives them. Follows
// docs/RULES.md, "Tables and their measures".

// No place.
pub const NONE: u32 = 4294967295;

// The counters of the jobs table: the sizes laid out, the number of jobs made, and the minutes of class 0, which those
// of the other classes follow.
pub const JOBS: u32 = 0;

pub const ARCS: u32 = 1;

pub const BITS: u32 = 2;

pub const WORKERS: u32 = 3;

pub const MADE: u32 = 4;

pub const MINUTES: u32 = 5;

// A job's fields.
pub const NAME: u32 = 0;

pub const LABEL: u32 = 1;

pub const COUNT: u32 = 2;

pub const CLASS: u32 = 3;

pub const GROWER: u32 = 4;

pub const FIRST: u32 = 5;

pub const LAST: u32 = 6;

pub const NEXT: u32 = 7;

pub const OUTCOME: u32 = 8;

pub const SPOILED: u32 = 9;

// A job's labels.
pub const UNEXECUTED: u32 = 0;

pub const EXECUTING: u32 = 1;

pub const FINISHED: u32 = 2;

// The counter of the arcs table, and an arc's fields.
pub const RESERVED: u32 = 0;

pub const DEPENDENT: u32 = 0;

pub const AFTER: u32 = 1;

// The counters of the queue, and the fields of a cell: its job, the slot of the index that shares its record, and the
// cell's own position, which is the slot that holds it.
pub const TAKEN: u32 = 0;

pub const PUT: u32 = 1;

pub const QUEUED: u32 = 0;

pub const SLOT: u32 = 1;

pub const POSITION: u32 = 2;

// The levels of the index below its first slot.
pub const LEVELS: u32 = 12;

// A worker's fields; the list of names follows the last.
pub const PHASE: u32 = 0;

pub const HELD: u32 = 1;

pub const OWN_NAME: u32 = 2;

pub const LIST_COUNT: u32 = 3;

pub const OWN_CLASS: u32 = 4;

pub const OWN_GROWER: u32 = 5;

pub const TALLY: u32 = 6;

pub const PLACE: u32 = 7;

pub const OWN_JOB: u32 = 8;

pub const OWN_ARC: u32 = 9;

pub const NOTE: u32 = 10;

pub const NAMES: u32 = 11;

// A worker's phases.
pub const IDLE: u32 = 0;

pub const LOOKING: u32 = 1;

pub const LINKING: u32 = 2;

pub const MARKING: u32 = 3;

pub const NOTIFYING: u32 = 4;

// Words before the first record of a table, and words of a record.
pub const JOB_HEAD: u32 = 21;

pub const JOB_WIDTH: u32 = 10;

pub const ARC_HEAD: u32 = 1;

pub const ARC_WIDTH: u32 = 2;

pub const BUCKET_HEAD: u32 = 0;

pub const BUCKET_WIDTH: u32 = 1;

pub const QUEUE_HEAD: u32 = 2;

pub const QUEUE_WIDTH: u32 = 3;

pub const WORKER_HEAD: u32 = 0;

pub const WORKER_WIDTH: u32 = 43;
