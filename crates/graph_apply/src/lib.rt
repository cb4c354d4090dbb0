// The stores of a plan, by its kind. Follows docs/RULES.md, "Steps" and "Tables and their measures". Nothing is
// required of a table, a worker or a plan; where a counter would pass the largest word, which no plan of sound sizes
// asks, nothing is promised.
#![tactic(auto)]

ghost use Rattle.std.specs.Prelude.{◌≡◌};
ghost use Rattle.def_words.specs.Layout.{view};
ghost use Rattle.def_words.specs.Words.{applied};
ghost use Rattle.lent_graph.specs.Lent.{words, Same};
ghost use Rattle.thm_counters_fit.specs.Fitting.{Fitting};
ghost use Rattle.thm_counters_fit.specs.Kinds.{Own, Stored};

use def_words::Plan;
use graph_step_stores::adding::{apply_link, apply_settle};
use graph_step_stores::entering::enter;
use graph_step_stores::finishing::apply_finish;
use graph_worker_words::{count_place, count_tally, idle_worker};
use lent_graph::Graph;

// The plans that store in the worker's record alone.
fn apply_own(graph: &mut Graph, worker: u32, plan: Plan)
    ensures same { Same graph.old graph.new }
    ensures rest { (graph.new.jobs.now ≡ graph.old.jobs.now) × (graph.new.arcs.now ≡ graph.old.arcs.now)
        × (graph.new.buckets.now ≡ graph.old.buckets.now) × (graph.new.queue.now ≡ graph.old.queue.now) }
    ensures stores { Own plan → Stored plan worker (words graph.old) (words graph.new) }
{
    match plan {
        Plan::Quit { .. } => idle_worker(graph.workers, worker),
        Plan::Pass => count_place(graph.workers, worker),
        Plan::Tally { outcome } => count_tally(graph.workers, worker, outcome),
        _ => {}
    }
}

// The stores of a step's plan.
pub fn apply(graph: &mut Graph, worker: u32, plan: Plan)
    ensures same { Same graph.old graph.new }
    ensures stores { Fitting plan (view (words graph.old)) worker
        → words graph.new ≡ applied plan (words graph.old) worker }
{
    match plan {
        Plan::Refuse { .. } => {}
        Plan::Enter {
            job,
            bucket,
            head,
            arc,
        } => enter(graph, worker, job, bucket, head, arc),
        Plan::Quit { .. } | Plan::Pass | Plan::Tally { .. } => apply_own(graph, worker, plan),
        Plan::LinkFirst { .. } | Plan::LinkAfter { .. } => apply_link(graph, worker, plan),
        Plan::Settle { .. } | Plan::SettleQueue { .. } => apply_settle(graph, worker, plan),
        Plan::Mark { .. } | Plan::Notify { .. } | Plan::NotifyQueue { .. } => {
            apply_finish(graph, worker, plan)
        }
    }
}
