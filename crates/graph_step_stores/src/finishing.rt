// What the plans of a finish store in the tables. Follows docs/RULES.md, "Steps" and "Tables and their measures".
// Nothing is required of a table, a worker or a plan; tables that a function does not store in stay, whatever the plan.
ghost use Rattle.std.specs.Prelude.{◌≡◌, ◌<◌};
ghost use Rattle.def_words.specs.Layout.{none};
ghost use Rattle.def_words.specs.Words.{applied};
ghost use Rattle.def_words.specs.declared.Plan.TheVariants.{Mark, Notify, NotifyQueue};
ghost use Rattle.lent_graph.specs.Lent.{words, Same};
ghost use Rattle.thm_counters_fit.specs.Kinds.{Finishing, Stored};

use def_words::{Plan, Seat};
use graph_queue::put_seat;
use graph_words::layout::*;
use graph_words::{put_count, put_outcome};
use graph_worker_words::{arcs_from, mark_worker};
use lent_graph::Graph;

// The finish marks its job, with its outcome.
fn mark(graph: &mut Graph, worker: u32, job: u32, first: u32)
    ensures same { Same graph.old graph.new }
    ensures stores { words graph.new ≡ applied (Mark job first) (words graph.old) worker }
{
    let outcome = graph.worker_word(worker, NOTE);
    put_outcome(graph.jobs, job, outcome);
    mark_worker(graph.workers, worker, first);
}

// The finish tells a dependent, which still waits. A failed one spoils it.
fn notify(graph: &mut Graph, worker: u32, job: u32, count: u32, next: u32)
    ensures same { Same graph.old graph.new }
    ensures stores { words graph.new ≡ applied (Notify job count next) (words graph.old) worker }
{
    let note = graph.worker_word(worker, NOTE);
    put_count(graph.jobs, job, count, note);
    arcs_from(graph.workers, worker, next);
}

// The finish tells a dependent, which is queued. A failed one spoils it.
fn notify_queue(graph: &mut Graph, worker: u32, job: u32, count: u32, next: u32, seat: Seat)
    ensures same { Same graph.old graph.new }
    ensures rest { (graph.new.arcs.now ≡ graph.old.arcs.now) × (graph.new.buckets.now ≡ graph.old.buckets.now) }
    ensures stores { seat.cell < none
        → words graph.new ≡ applied (NotifyQueue job count next seat) (words graph.old) worker }
{
    let note = graph.worker_word(worker, NOTE);
    put_count(graph.jobs, job, count, note);
    put_seat(graph.queue, seat, job);
    arcs_from(graph.workers, worker, next);
}

// The plans of a finish.
pub fn apply_finish(graph: &mut Graph, worker: u32, plan: Plan)
    ensures same { Same graph.old graph.new }
    ensures rest { (graph.new.arcs.now ≡ graph.old.arcs.now) × (graph.new.buckets.now ≡ graph.old.buckets.now) }
    ensures stores { Finishing plan → Stored plan worker (words graph.old) (words graph.new) }
{
    match plan {
        Plan::Mark { job, first } => mark(graph, worker, job, first),
        Plan::Notify { job, count, next } => notify(graph, worker, job, count, next),
        Plan::NotifyQueue {
            job,
            count,
            next,
            seat,
        } => notify_queue(graph, worker, job, count, next, seat),
        _ => {}
    }
}
