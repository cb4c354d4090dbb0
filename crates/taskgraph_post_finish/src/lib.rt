// The post of a finish as C has it: the sizes, the five lent tables, then the worker, the name of its job and its
// outcome, 0 for good and any other number for failed. A slice is a pointer and a count of elements in C; answers are
// structs by value. include/taskgraph.h declares all of this. Follows docs/RULES.md, "Steps" and "Turned-away calls".
// Assumes that a pointer with a count points to that many elements.
#![tactic(auto)]

ghost use Rattle.def_words.specs.Layout.{as_lent, as_left};
ghost use Rattle.def_words.specs.Words.{finish_words};
ghost use Rattle.taskgraph_answer.specs.Answers.{Gives, finish_taken};

use def_terms::Sizes;
use lent_graph::Graph;
use taskgraph_answer::GraphAnswer;

// Posts a finish of the held job of this name with its outcome.
#[unsafe(no_mangle)]
pub extern "C" fn tg_post_finish(
    sizes: Sizes,
    jobs: &mut [u32],
    arcs: &mut [u32],
    buckets: &mut [u32],
    queue: &mut [u32],
    workers: &mut [u32],
    worker: u32,
    name: u32,
    outcome: u32,
) -> GraphAnswer
    ensures { Gives result (as_left jobs arcs buckets queue workers)
        (finish_words sizes (as_lent jobs arcs buckets queue workers) worker
        (finish_taken name outcome)) }
{
    let mut graph = Graph {
        sizes,
        jobs,
        arcs,
        buckets,
        queue,
        workers,
    };
    graph_post::finish::post_finish(&mut graph, worker, name, outcome != 0).into()
}
