// What a sheet of adds answers, as C has it: include/taskgraph.h declares it. What it holds stands in specs/.
#![tactic(auto)]

// The number that turned the sheet away, or 0; and of each entry its number and, for 6, its place in the list: 0 and 0
// where it was accepted, and past the last entry. `stopped` is 1 more than the number, from 0, of the entry whose add
// damage stopped half done, or 0 where there is none.
#[repr(C)]
#[derive(Clone, Copy)]
pub struct SheetAdded {
    pub number: u32,
    pub numbers: [u32; 64],
    pub places: [u32; 64],
    pub stopped: u32,
}
