// The structs that C is handed of sheets, of the day list and of the words that tables need; include/taskgraph.h
// declares them. specs/ has what each tells; that it can be read back stands there and in proofs/. Follows docs/RULES.md
// and docs/SHEETS.md.
#![tactic(auto)]

use def_sheets::Entry;

// What stands at an offset of a sheet: found is 1 for a job, at the offset past it; number and found are 0 at the end
// of the sheet.
#[repr(C)]
#[derive(Clone, Copy)]
pub struct EntryRead {
    pub number: u32,
    pub found: u32,
    pub at: usize,
    pub entry: Entry,
}

// How many entries a sheet has, or a refusal with its offset.
#[repr(C)]
#[derive(Clone, Copy)]
pub struct SheetScanned {
    pub number: u32,
    pub entries: usize,
    pub at: usize,
}

// Where the entry ends in the output, or a refusal with the offset of its field from the entry's start.
#[repr(C)]
#[derive(Clone, Copy)]
pub struct EntryWritten {
    pub number: u32,
    pub at: usize,
}

// How many entries and bytes were written, or a refusal with the entry's number and the offset of its field from the
// entry's start.
#[repr(C)]
#[derive(Clone, Copy)]
pub struct SheetWritten {
    pub number: u32,
    pub entry: usize,
    pub at: usize,
}

// What a sheet comes to: its jobs, its arcs and the steps of a full run; the first entry turned away, with the place in
// its list; or a refusal with its offset.
#[repr(C)]
#[derive(Clone, Copy)]
pub struct SheetRoom {
    pub number: u32,
    pub entry: u32,
    pub place: u32,
    pub jobs: u32,
    pub arcs: u32,
    pub steps: u32,
    pub at: usize,
}

// How many bytes the day list printed, or a refusal.
#[repr(C)]
#[derive(Clone, Copy)]
pub struct DayPrinted {
    pub number: u32,
    pub bytes: usize,
}

// How many words each table must have, or the number that refuses the sizes.
#[repr(C)]
#[derive(Clone, Copy)]
pub struct Need {
    pub number: u32,
    pub jobs: usize,
    pub arcs: usize,
    pub buckets: usize,
    pub queue: usize,
    pub workers: usize,
}
