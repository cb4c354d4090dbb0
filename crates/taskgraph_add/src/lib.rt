// An add run whole as C has it: posted, and stepped to the end, in one call. A slice is a pointer and a count of
// elements in C; the answer is a struct by value. include/taskgraph.h declares it. Follows docs/RULES.md, "Whole
// calls". Assumes that a pointer with a count points to that many elements.
#![tactic(auto)]

ghost use Rattle.def_words.specs.Layout.{as_lent, as_left};
ghost use Rattle.def_whole_calls.specs.Whole.{whole_add};
ghost use Rattle.lent_graph.specs.Lent.{words, Same};
ghost use Rattle.taskgraph_answer.specs.WholeAnswers.{GivesWhole};
ghost use Rattle.def_sheet_rows.specs.Arguments.{arguments_of};

use def_sheets::Entry;
use def_terms::Sizes;
use lent_graph::Graph;
use taskgraph_answer::{GraphAnswer, whole_answered};
use whole_add::add_whole;
use worker_phase::{phase_in, stopped_as};

// An add run whole, as C has it. The phase of the worker, read before and after, tells an add that damage stopped half
// done.
fn add(graph: &mut Graph, worker: u32, entry: Entry) -> GraphAnswer
    ensures same { Same graph.old graph.new }
    ensures told { GivesWhole result (words graph.new) (words graph.old) worker
        (whole_add graph.old.sizes (words graph.old) worker (arguments_of entry)) }
{
    let before = phase_in(graph, worker);
    let made = add_whole(graph, worker, entry);
    let answer = GraphAnswer::from(made);
    let after = phase_in(graph, worker);
    whole_answered(answer, stopped_as(answer.number, before, after))
}

// Adds the entry's job.
#[unsafe(no_mangle)]
pub extern "C" fn tg_add(
    sizes: Sizes,
    jobs: &mut [u32],
    arcs: &mut [u32],
    buckets: &mut [u32],
    queue: &mut [u32],
    workers: &mut [u32],
    worker: u32,
    entry: Entry,
) -> GraphAnswer
    ensures { GivesWhole result (as_left jobs arcs buckets queue workers)
        (as_lent jobs arcs buckets queue workers) worker
        (whole_add sizes (as_lent jobs arcs buckets queue workers) worker (arguments_of entry)) }
{
    let mut graph = Graph {
        sizes,
        jobs,
        arcs,
        buckets,
        queue,
        workers,
    };
    add(&mut graph, worker, entry)
}
