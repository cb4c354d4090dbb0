// A get over five lent tables: planned, stored, answered. Follows docs/RULES.md, "Steps" and "Turned-away calls".
// Nothing is required: a get answers for all tables.
#![tactic(auto)]

ghost use Rattle.std.specs.Prelude.{◌≡◌};
ghost use Rattle.def_terms.specs.Runs.{result_of};
ghost use Rattle.def_words.specs.Words.{answer_get, get_words};
ghost use Rattle.lent_graph.specs.Lent.{words, Same};

mod stores;

use def_terms::Answer;
use def_words::GetPlan;
use graph_plan_get::plan_get;
use lent_graph::Graph;
use stores::apply_get;

// What a get answers.
fn answer_get(plan: GetPlan) -> Answer
    ensures { result ≡ answer_get plan }
{
    match plan {
        GetPlan::RefuseGet { number } => Answer::Refused { number, place: 0 },
        GetPlan::Wait => Answer::NoneReady,
        GetPlan::Take { out, .. } => Answer::Handed { out },
    }
}

// Hands the worker the job that is first by the order of hand-outs.
pub fn get(graph: &mut Graph, worker: u32) -> Answer
    ensures same { Same graph.old graph.new }
    ensures answered { result_of result (words graph.new) ≡ get_words graph.old.sizes (words graph.old) worker }
{
    let plan = plan_get(graph, worker);
    apply_get(graph, worker, plan);
    answer_get(plan)
}
