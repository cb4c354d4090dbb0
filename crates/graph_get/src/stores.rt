// What the plan of a get stores in the tables. Follows docs/RULES.md, "Steps" and "Tables and their measures". Nothing
// is required of a table, a worker or a plan; tables that a function does not store in stay, whatever the plan.
ghost use Rattle.std.specs.Prelude.{◌≡◌, ◌<◌};
ghost use Rattle.def_words.specs.Columns.{header};
ghost use Rattle.def_words.specs.Layout.{none, TAKEN, view};
ghost use Rattle.def_words.specs.Words.{applied_get};
ghost use Rattle.def_words.specs.declared.GetPlan.TheVariants.{Take};
ghost use Rattle.lent_graph.specs.Lent.{words, Same};
ghost use Rattle.thm_counters_fit.specs.Fitting.{FittingGet};

use def_terms::HandOut;
use def_words::{GetPlan, Seat};
use graph_queue::take_seat;
use graph_words::layout::*;
use graph_words::{put_job, put_worker};
use lent_graph::Graph;

// The job of the index's first cell is handed to the worker.
fn take(graph: &mut Graph, worker: u32, out: HandOut, seat: Seat)
    ensures same { Same graph.old graph.new }
    ensures rest { (graph.new.arcs.now ≡ graph.old.arcs.now) × (graph.new.buckets.now ≡ graph.old.buckets.now) }
    ensures stores { header graph.old.queue.now TAKEN < none
        → words graph.new ≡ applied_get (Take out seat) (words graph.old) worker }
{
    put_job(graph.jobs, out.job, LABEL, EXECUTING);
    take_seat(graph.queue, seat);
    put_worker(graph.workers, worker, HELD, out.job);
}

// The stores of a get's plan.
pub fn apply_get(graph: &mut Graph, worker: u32, plan: GetPlan)
    ensures same { Same graph.old graph.new }
    ensures rest { (graph.new.arcs.now ≡ graph.old.arcs.now) × (graph.new.buckets.now ≡ graph.old.buckets.now) }
    ensures stores { FittingGet plan (view (words graph.old))
        → words graph.new ≡ applied_get plan (words graph.old) worker }
{
    match plan {
        GetPlan::RefuseGet { .. } => {}
        GetPlan::Wait => {}
        GetPlan::Take { out, seat } => take(graph, worker, out, seat),
    }
}
