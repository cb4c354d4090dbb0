// An add run whole: posted, and stepped to its end, in one go. Follows docs/RULES.md, "Whole calls".
#![tactic(auto)]

ghost use Rattle.std.specs.Prelude.{◌≡◌};
ghost use Rattle.def_terms.specs.Runs.{result_of};
ghost use Rattle.lent_graph.specs.Lent.{words, Same};
ghost use Rattle.def_whole_calls.specs.Whole.{whole_add};
ghost use Rattle.def_sheet_rows.specs.Arguments.{arguments_of};

use def_sheets::Entry;
use def_terms::Answer;
use fused_add::add_if_idle;
use lent_graph::Graph;

// An add run whole: the tests that come first, and then an add of an idle worker.
pub fn add_whole(graph: &mut Graph, worker: u32, entry: Entry) -> Answer
    ensures same { Same graph.old graph.new }
    ensures answered { result_of result (words graph.new)
        ≡ whole_add graph.old.sizes (words graph.old) worker (arguments_of entry) }
{
    match graph.admit(worker) {
        Err(refusal) => Answer::Refused {
            number: refusal.into(),
            place: 0,
        },
        Ok(()) => add_if_idle(
            graph.sizes,
            graph.jobs,
            graph.arcs,
            graph.buckets,
            graph.queue,
            graph.workers,
            worker,
            entry,
        ),
    }
}
