// A step of a worker's call over five lent tables: planned, stored, answered. Follows docs/RULES.md, "Steps" and
// "Turned-away calls". Nothing is required: a step answers for all tables.
#![tactic(auto)]

ghost use Rattle.std.specs.Prelude.{◌≡◌};
ghost use Rattle.def_terms.specs.Runs.{result_of};
ghost use Rattle.def_words.specs.Words.{going_unless, answer_of, step_words};
ghost use Rattle.lent_graph.specs.Lent.{words, Same};

use def_terms::Answer;
use def_words::Plan;
use graph_apply::apply;
use graph_plan_step::plan_step;
use graph_words::layout::NONE;
use lent_graph::Graph;

// A step that ended its call, or one after which it goes on.
fn going_unless(ends: bool) -> Answer
    ensures { result ≡ going_unless ends }
{
    if ends { Answer::Ended } else { Answer::Going }
}

// What a step answers.
fn answer_of(plan: Plan) -> Answer
    ensures { result ≡ answer_of plan }
{
    match plan {
        Plan::Refuse { number } => Answer::Refused { number, place: 0 },
        Plan::Quit { number, place } => Answer::Refused { number, place },
        Plan::Pass => Answer::Going,
        Plan::Enter { .. } => Answer::Going,
        Plan::Tally { .. } => Answer::Going,
        Plan::LinkFirst { .. } => Answer::Going,
        Plan::LinkAfter { .. } => Answer::Going,
        Plan::Settle { .. } => Answer::Ended,
        Plan::SettleQueue { .. } => Answer::Ended,
        Plan::Mark { first, .. } => going_unless(first == NONE),
        Plan::Notify { next, .. } => going_unless(next == NONE),
        Plan::NotifyQueue { next, .. } => going_unless(next == NONE),
    }
}

// Makes one step of the worker's call.
pub fn step(graph: &mut Graph, worker: u32) -> Answer
    ensures same { Same graph.old graph.new }
    ensures answered { result_of result (words graph.new) ≡ step_words graph.old.sizes (words graph.old) worker }
{
    let plan = plan_step(graph, worker);
    apply(graph, worker, plan);
    answer_of(plan)
}
