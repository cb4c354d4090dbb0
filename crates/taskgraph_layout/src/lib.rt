// The words that the five tables need, and laying them out, as C has them: the sizes, then the lent tables. A slice is
// a pointer and a count of elements in C; answers are structs by value. include/taskgraph.h declares them. Follows
// docs/RULES.md, "Tables and their measures" and "Turned-away calls". Assumes that a pointer with a count points to
// that many elements.
#![tactic(auto)]

ghost use Rattle.std.specs.Prelude.{◌≡◌};
ghost use Rattle.def_words.specs.Layout.{as_lent, as_left};
ghost use Rattle.def_words.specs.Words.{lay_out};
ghost use Rattle.def_told.specs.Needed.{words_needed};
ghost use Rattle.taskgraph_answer.specs.Answers.{Gives};

use def_terms::Sizes;
use def_told::Need;
use lent_graph::Graph;
use taskgraph_answer::GraphAnswer;

// How long the tables must be for these sizes.
#[unsafe(no_mangle)]
pub extern "C" fn tg_words_needed(sizes: Sizes) -> Need
    ensures { result ≡ words_needed sizes }
{
    graph_layout::words_needed(sizes)
}

// Lays the tables out for a fresh graph.
#[unsafe(no_mangle)]
pub extern "C" fn tg_lay_out(
    sizes: Sizes,
    jobs: &mut [u32],
    arcs: &mut [u32],
    buckets: &mut [u32],
    queue: &mut [u32],
    workers: &mut [u32],
) -> GraphAnswer
    ensures { Gives result (as_left jobs arcs buckets queue workers)
        (lay_out sizes (as_lent jobs arcs buckets queue workers)) }
{
    let mut graph = Graph {
        sizes,
        jobs,
        arcs,
        buckets,
        queue,
        workers,
    };
    graph_layout::lay_out(&mut graph).into()
}
