// Where a number that moves through a heap comes to rest, or that it met a slot whose number may not be there.
#![tactic(auto)]

#[derive(Clone, Copy)]
pub enum Sifted {
    Rests { slot: u32 },
    Astray,
}

// The rank of a number in a heap, of which the lowest goes first: the greater weight has the lower rank, and of equal
// weights the smaller name.
#[derive(Clone, Copy)]
pub struct Rank {
    pub weight: u32,
    pub name: u32,
}
