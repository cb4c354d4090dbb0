// What a worker that restarts asks, and what a host that wants to stop asks. What each answer means stands in specs/.
#![tactic(auto)]

// The number is 0, or a refusal's, and then all else is 0. `holds` is 1 with a job, its name and its spoiled word, else
// 0; `call` is 0 where no call is half done, 1 for an add and 2 for a finish; `adds` is the name of the add half done,
// else 0; `spoiled` is 1 for a held job that is spoiled, else 0.
#[repr(C)]
#[derive(Clone, Copy, Default)]
pub struct Holding {
    pub number: u32,
    pub holds: u32,
    pub job: u32,
    pub name: u32,
    pub call: u32,
    pub adds: u32,
    pub spoiled: u32,
}

// The number is 0, or a refusal's, and then all else is 0. `drained` is 1 where the queue is empty and every worker is
// idle and without a job, else 0.
#[repr(C)]
#[derive(Clone, Copy, Default)]
pub struct Drained {
    pub number: u32,
    pub drained: u32,
}
