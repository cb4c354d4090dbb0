// The post of a finish over five lent tables: a number refuses the call, or it is kept in its worker's record. Follows
// docs/RULES.md, "Steps" and "Turned-away calls". Nothing is required: it answers for all tables and arguments.
ghost use Rattle.std.specs.Prelude.{◌≡◌};
ghost use Rattle.def_terms.specs.Terms.{finish_of};
ghost use Rattle.def_terms.specs.Runs.{result_of};
ghost use Rattle.lent_graph.specs.Lent.{words, Same};
ghost use Rattle.def_words.specs.Words.{finish_words};

use def_terms::{Answer, bit};
use graph_judge::judge_finish;
use graph_records::put_bare_worker;
use graph_words::layout::*;
use lent_graph::Graph;

// Posts a finish of the held job `name`, failed or good.
pub fn post_finish(graph: &mut Graph, worker: u32, name: u32, failed: bool) -> Answer
    ensures same { Same graph.old graph.new }
    ensures answered { result_of result (words graph.new)
        ≡ finish_words graph.old.sizes (words graph.old) worker (finish_of name failed) }
{
    if let Err(refusal) = judge_finish(graph, worker, name, failed) {
        return Answer::Refused {
            number: refusal.into(),
            place: 0,
        };
    }
    let held = graph.worker_word(worker, HELD);
    put_bare_worker(graph.workers, worker, MARKING, held, bit(failed));
    Answer::Posted
}
