// The load of a district's own minutes over five lent tables: a number refuses it, or the minutes take the place of
// those stored. Follows docs/RULES.md, "A district's minutes" and "Turned-away calls": the order is 1, 17, 9, 18.
// Nothing is required: it answers for all tables and minutes.
#![tactic(auto)]

ghost use Rattle.std.specs.Prelude.{◌≡◌};
ghost use Rattle.def_numbers.specs.Refusals.{number_told};
ghost use Rattle.def_terms.specs.Runs.{result_of};
ghost use Rattle.lent_graph.specs.Lent.{words, Same};
ghost use Rattle.def_words.specs.Words.{judged_load, load_words};

use def_minutes::is_rising;
use def_numbers::Refusal;
use def_terms::Answer;
use graph_records::put_words;
use graph_sizes::sizes_fit;
use graph_words::layout::*;
use lent_graph::Graph;

// What turns a load away.
fn judge_load(graph: &Graph, minutes: &[u32]) -> Result<(), Refusal>
    ensures { number_told result ≡ judged_load graph.now.sizes (words graph.now) minutes.now }
{
    if !sizes_fit(
        graph.sizes,
        graph.jobs,
        graph.arcs,
        graph.buckets,
        graph.queue,
        graph.workers,
    ) {
        return Err(Refusal::WrongSize);
    }
    if !is_rising(minutes) {
        return Err(Refusal::WrongMinutes);
    }
    let made = graph.made();
    if made > graph.sizes.jobs {
        return Err(Refusal::Damaged);
    }
    if made != 0 {
        return Err(Refusal::JobsEntered);
    }
    Ok(())
}

// Loads the minutes of all classes, before the first job enters.
pub fn load(graph: &mut Graph, minutes: &[u32]) -> Answer
    ensures same { Same graph.old graph.new }
    ensures answered { result_of result (words graph.new)
        ≡ load_words graph.old.sizes (words graph.old) minutes.now }
{
    if let Err(refusal) = judge_load(graph, minutes) {
        return Answer::Refused {
            number: refusal.into(),
            place: 0,
        };
    }
    put_words(graph.jobs, MINUTES, minutes);
    Answer::Loaded
}
