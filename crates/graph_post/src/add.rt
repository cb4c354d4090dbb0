// The post of an add over five lent tables: a number refuses the call, or it is kept in its worker's record. Follows
// docs/RULES.md, "Steps" and "Turned-away calls". Nothing is required: it answers for all tables and arguments.
ghost use Rattle.std.specs.Prelude.{◌≡◌};
ghost use Rattle.def_terms.specs.Runs.{result_of};
ghost use Rattle.lent_graph.specs.Lent.{words, Same};
ghost use Rattle.def_words.specs.Words.{add_words};
ghost use Rattle.def_sheet_rows.specs.Arguments.{arguments_of};

use def_sheets::Entry;
use def_terms::Answer;
use graph_judge::judge_add;
use graph_posted_add::put_adding_worker;
use graph_words::layout::HELD;
use lent_graph::Graph;

// Posts an add of the entry's job, whose prerequisites are the first `count` of `names`.
pub fn post_add(graph: &mut Graph, worker: u32, entry: Entry) -> Answer
    ensures same { Same graph.old graph.new }
    ensures answered { result_of result (words graph.new)
        ≡ add_words graph.old.sizes (words graph.old) worker (arguments_of entry) }
{
    if let Err(refusal) = judge_add(graph, worker, entry) {
        return Answer::Refused {
            number: refusal.into(),
            place: 0,
        };
    }
    let held = graph.worker_word(worker, HELD);
    put_adding_worker(graph.workers, worker, held, &entry);
    Answer::Posted
}
