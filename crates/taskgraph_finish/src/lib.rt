// A finish run whole as C has it: posted, and stepped to the end, in one call. A slice is a pointer and a count of
// elements in C; the answer is a struct by value. include/taskgraph.h declares it. Follows docs/RULES.md, "Whole
// calls". Assumes that a pointer with a count points to that many elements.
#![tactic(auto)]

ghost use Rattle.def_words.specs.Layout.{as_lent, as_left};
ghost use Rattle.def_whole_calls.specs.Whole.{whole_finish};
ghost use Rattle.taskgraph_answer.specs.Answers.{finish_taken};
ghost use Rattle.lent_graph.specs.Lent.{words, Same};
ghost use Rattle.taskgraph_answer.specs.WholeAnswers.{GivesWhole};

use def_terms::Sizes;
use lent_graph::Graph;
use taskgraph_answer::{GraphAnswer, whole_answered};
use whole_finish::finish_whole;
use worker_phase::{phase_in, stopped_as};

// A finish run whole, as C has it. The phase of the worker, read before and after, tells a finish that damage stopped
// half done.
fn finish(graph: &mut Graph, worker: u32, name: u32, outcome: u32) -> GraphAnswer
    ensures same { Same graph.old graph.new }
    ensures told { GivesWhole result (words graph.new) (words graph.old) worker
        (whole_finish graph.old.sizes (words graph.old) worker (finish_taken name outcome)) }
{
    let before = phase_in(graph, worker);
    let made = finish_whole(graph, worker, name, outcome != 0);
    let answer = GraphAnswer::from(made);
    let after = phase_in(graph, worker);
    whole_answered(answer, stopped_as(answer.number, before, after))
}

// Finishes the held job of a name with its outcome, 0 for good and any other number for failed.
#[unsafe(no_mangle)]
pub extern "C" fn tg_finish(
    sizes: Sizes,
    jobs: &mut [u32],
    arcs: &mut [u32],
    buckets: &mut [u32],
    queue: &mut [u32],
    workers: &mut [u32],
    worker: u32,
    name: u32,
    outcome: u32,
) -> GraphAnswer
    ensures { GivesWhole result (as_left jobs arcs buckets queue workers)
        (as_lent jobs arcs buckets queue workers) worker
        (whole_finish sizes (as_lent jobs arcs buckets queue workers) worker
        (finish_taken name outcome)) }
{
    let mut graph = Graph {
        sizes,
        jobs,
        arcs,
        buckets,
        queue,
        workers,
    };
    finish(&mut graph, worker, name, outcome)
}
