// What a worker holds and whether the graph is drained, as C has it: the sizes, the five lent tables, then the worker.
// A slice is a pointer and a count of elements in C; an answer is a struct by value. include/taskgraph.h declares it.
// Follows docs/RULES.md, "Tables and their measures" and "Turned-away calls".
// Assumes that a pointer with a count points to that many elements.
#![tactic(auto)]

ghost use Rattle.std.specs.Prelude.{◌≡◌};
ghost use Rattle.def_words.specs.Layout.{tables};
ghost use Rattle.def_worker_state.specs.Held.{held_words};
ghost use Rattle.def_worker_state.specs.Drained.{drained_words};

use def_terms::Sizes;
use def_worker_state::{Drained, Holding};

// What the worker holds, and the call that it has half done.
#[unsafe(no_mangle)]
pub extern "C" fn tg_held(
    sizes: Sizes,
    jobs: &[u32],
    arcs: &[u32],
    buckets: &[u32],
    queue: &[u32],
    workers: &[u32],
    worker: u32,
) -> Holding
    ensures { result ≡ held_words sizes (tables jobs.now arcs.now buckets.now queue.now workers.now) worker }
{
    graph_held::held(sizes, jobs, arcs, buckets, queue, workers, worker)
}

// Whether the queue is empty and every worker is idle and holds nothing.
#[unsafe(no_mangle)]
pub extern "C" fn tg_drained(
    sizes: Sizes,
    jobs: &[u32],
    arcs: &[u32],
    buckets: &[u32],
    queue: &[u32],
    workers: &[u32],
) -> Drained
    ensures { result ≡ drained_words sizes (tables jobs.now arcs.now buckets.now queue.now workers.now) }
{
    graph_drained::drained(sizes, jobs, arcs, buckets, queue, workers)
}
