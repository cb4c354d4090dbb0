// The load of a district's own minutes as C has it: the sizes, the five lent tables, then the minutes of the classes. A
// slice is a pointer and a count of elements in C; answers are structs by value. include/taskgraph.h declares all of
// this. Follows docs/RULES.md, "A district's minutes" and "Turned-away calls". Assumes that a pointer with a count
// points to that many elements.
#![tactic(auto)]

ghost use Rattle.def_words.specs.Layout.{as_lent, as_left};
ghost use Rattle.def_words.specs.Words.{load_words};
ghost use Rattle.taskgraph_answer.specs.Answers.{Gives};

use def_terms::Sizes;
use lent_graph::Graph;
use taskgraph_answer::GraphAnswer;

// Loads the minutes of all classes, before the first job enters.
#[unsafe(no_mangle)]
pub extern "C" fn tg_load_minutes(
    sizes: Sizes,
    jobs: &mut [u32],
    arcs: &mut [u32],
    buckets: &mut [u32],
    queue: &mut [u32],
    workers: &mut [u32],
    minutes: &[u32],
) -> GraphAnswer
    ensures { Gives result (as_left jobs arcs buckets queue workers)
        (load_words sizes (as_lent jobs arcs buckets queue workers) minutes.now) }
{
    let mut graph = Graph {
        sizes,
        jobs,
        arcs,
        buckets,
        queue,
        workers,
    };
    graph_load::load(&mut graph, minutes).into()
}
