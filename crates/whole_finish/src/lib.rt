// A finish run whole: posted, and stepped to its end, in one go. Follows docs/RULES.md, "Whole calls".
#![tactic(auto)]

ghost use Rattle.std.specs.Prelude.{◌≡◌};
ghost use Rattle.def_terms.specs.Terms.{finish_of};
ghost use Rattle.def_terms.specs.Runs.{result_of};
ghost use Rattle.lent_graph.specs.Lent.{words, Same};
ghost use Rattle.def_whole_calls.specs.Whole.{whole_finish};

use def_terms::Answer;
use fused_finish::finish_if_idle;
use lent_graph::Graph;

// A finish run whole: the tests that come first, and then a finish of an idle worker.
pub fn finish_whole(graph: &mut Graph, worker: u32, name: u32, failed: bool) -> Answer
    ensures same { Same graph.old graph.new }
    ensures answered { result_of result (words graph.new)
        ≡ whole_finish graph.old.sizes (words graph.old) worker (finish_of name failed) }
{
    match graph.admit(worker) {
        Err(refusal) => Answer::Refused {
            number: refusal.into(),
            place: 0,
        },
        Ok(()) => finish_if_idle(
            graph.sizes,
            graph.jobs,
            graph.arcs,
            graph.buckets,
            graph.queue,
            graph.workers,
            worker,
            name,
            failed,
        ),
    }
}
