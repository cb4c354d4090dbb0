// The post of an add as C has it: the sizes, the five lent tables, then the worker and the entry of its job. A slice is
// a pointer and a count of elements in C; answers are structs by value. include/taskgraph.h declares all of this.
// Follows docs/RULES.md, "Steps" and "Turned-away calls". Assumes that a pointer with a count points to that many
// elements.
#![tactic(auto)]

ghost use Rattle.def_words.specs.Layout.{as_lent, as_left};
ghost use Rattle.def_words.specs.Words.{add_words};
ghost use Rattle.taskgraph_answer.specs.Answers.{Gives};
ghost use Rattle.def_sheet_rows.specs.Arguments.{arguments_of};

use def_sheets::Entry;
use def_terms::Sizes;
use lent_graph::Graph;
use taskgraph_answer::GraphAnswer;

// Posts an add of the entry's job.
#[unsafe(no_mangle)]
pub extern "C" fn tg_post_add(
    sizes: Sizes,
    jobs: &mut [u32],
    arcs: &mut [u32],
    buckets: &mut [u32],
    queue: &mut [u32],
    workers: &mut [u32],
    worker: u32,
    entry: Entry,
) -> GraphAnswer
    ensures { Gives result (as_left jobs arcs buckets queue workers)
        (add_words sizes (as_lent jobs arcs buckets queue workers) worker (arguments_of entry)) }
{
    let mut graph = Graph {
        sizes,
        jobs,
        arcs,
        buckets,
        queue,
        workers,
    };
    graph_post::add::post_add(&mut graph, worker, entry).into()
}
