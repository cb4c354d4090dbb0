// A get as C has it: the sizes, the five lent tables, then the worker. A slice is a pointer and a count of elements in
// C; the answer is a struct by value. include/taskgraph.h declares it. Follows docs/RULES.md, "Steps" and "Turned-away
// calls". Assumes that a pointer with a count points to that many elements.
#![tactic(auto)]

ghost use Rattle.def_words.specs.Layout.{as_lent, as_left};
ghost use Rattle.def_words.specs.Words.{get_words};
ghost use Rattle.taskgraph_answer.specs.Answers.{Gives};

use def_terms::Sizes;
use lent_graph::Graph;
use taskgraph_answer::GraphAnswer;

// Hands the worker the waiting job with the most minutes, equal minutes by earlier entry into the queue.
#[unsafe(no_mangle)]
pub extern "C" fn tg_get(
    sizes: Sizes,
    jobs: &mut [u32],
    arcs: &mut [u32],
    buckets: &mut [u32],
    queue: &mut [u32],
    workers: &mut [u32],
    worker: u32,
) -> GraphAnswer
    ensures { Gives result (as_left jobs arcs buckets queue workers)
        (get_words sizes (as_lent jobs arcs buckets queue workers) worker) }
{
    let mut graph = Graph {
        sizes,
        jobs,
        arcs,
        buckets,
        queue,
        workers,
    };
    graph_get::get(&mut graph, worker).into()
}
