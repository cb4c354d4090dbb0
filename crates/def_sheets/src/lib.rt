// The types of the job sheet's reader and writer. What they mean stands in specs/, the theorems about sheets in
// proofs/.
#![tactic(auto)]

// An entry of a sheet: a job as a grower writes it. Names past the count are 0 in an entry that was read and ignored on
// writing.
#[repr(C)]
#[derive(Clone, Copy)]
pub struct Entry {
    pub name: u32,
    pub count: u32,
    pub class: u32,
    pub grower: u32,
    pub names: [u32; 32],
}

// A refusal by its number, with the offset of the field. Offsets run from the sheet's start.
#[derive(Clone, Copy)]
pub struct Refusal {
    pub number: u32,
    pub at: usize,
}

// The numbers of an entry. Of its list there is the count alone.
#[derive(Clone, Copy)]
pub struct Numbers {
    pub name: u32,
    pub count: u32,
    pub class: u32,
    pub grower: u32,
}

// The numbers of the entry that was scanned, with the offset past it.
#[derive(Clone, Copy)]
pub struct Scanned {
    pub numbers: Numbers,
    pub next: usize,
}

// How reading an entry ended. Offsets run from the sheet's start.
#[derive(Clone, Copy)]
pub enum Read {
    Job { next: usize },
    End,
    Refused { number: u32, at: usize },
}

// The answer, with the entry beside it: all 0 unless a job was read.
#[derive(Clone, Copy)]
pub struct Reading {
    pub answer: Read,
    pub entry: Entry,
}

// How writing an entry ended. A refusal's offset runs from the entry's start.
#[derive(Clone, Copy)]
pub enum Wrote {
    Done { next: usize },
    Refused { number: u32, at: usize },
}

// How writing a whole sheet ended. A refusal names the entry, and its offset runs from that entry's start.
#[derive(Clone, Copy)]
pub enum SheetWrote {
    Done {
        entries: usize,
        bytes: usize,
    },
    Refused {
        number: u32,
        entry: usize,
        at: usize,
    },
}
