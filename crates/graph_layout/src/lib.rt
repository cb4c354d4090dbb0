// How long the five tables must be for given sizes, and laying them out for a fresh graph. Follows docs/RULES.md,
// "Tables and their measures" and "Turned-away calls". Nothing is required: both answer for all sizes and tables.
#![tactic(auto)]

ghost use Rattle.std.specs.Prelude.{◌≡◌};
ghost use Rattle.def_terms.specs.Runs.{result_of};
ghost use Rattle.lent_graph.specs.Lent.{words, Same};
ghost use Rattle.def_words.specs.Words.{lay_out};
ghost use Rattle.def_told.specs.Needed.{words_needed};

mod fresh;

use def_numbers::*;
use def_terms::{Answer, Sizes};
use def_told::Need;
use fresh::{buckets_of, fresh_tables};
use graph_sizes::{need, within_limits};
use graph_words::layout::*;
use lent_graph::Graph;

pub fn words_needed(sizes: Sizes) -> Need
    ensures { result ≡ words_needed sizes }
{
    if !within_limits(sizes) {
        return Need {
            number: WRONG_SIZE,
            jobs: 0,
            arcs: 0,
            buckets: 0,
            queue: 0,
            workers: 0,
        };
    }
    Need {
        number: 0,
        jobs: need(JOB_HEAD, JOB_WIDTH, sizes.jobs),
        arcs: need(ARC_HEAD, ARC_WIDTH, sizes.arcs),
        buckets: buckets_of(sizes.bits),
        queue: need(QUEUE_HEAD, QUEUE_WIDTH, sizes.jobs),
        workers: need(WORKER_HEAD, WORKER_WIDTH, sizes.workers),
    }
}

// Lays the tables out for a fresh graph of these sizes.
pub fn lay_out(graph: &mut Graph) -> Answer
    ensures same { Same graph.old graph.new }
    ensures answered { result_of result (words graph.new) ≡ lay_out graph.old.sizes (words graph.old) }
{
    if !graph.has_room() {
        return Answer::Refused {
            number: WRONG_SIZE,
            place: 0,
        };
    }
    fresh_tables(graph);
    Answer::Laid
}
