// What the links and the settling of an add store in the tables. Follows docs/RULES.md, "Steps" and "Tables and their
// measures". Nothing is required of a table, a worker or a plan; tables that a function does not store in stay,
// whatever the plan.
ghost use Rattle.std.specs.Prelude.{◌≡◌, ◌<◌};
ghost use Rattle.def_words.specs.Columns.{columns};
ghost use Rattle.def_words.specs.Layout.{none, worker_shape, PLACE};
ghost use Rattle.def_words.specs.Words.{applied};
ghost use Rattle.def_words.specs.declared.Plan.TheVariants.{LinkFirst, LinkAfter, Settle, SettleQueue};
ghost use Rattle.lent_graph.specs.Lent.{words, Same};
ghost use Rattle.thm_counters_fit.specs.Kinds.{Linking, Settling, Stored};

use def_words::{Plan, Seat};
use graph_lists::{append_arc, new_arc, put_only_arc};
use graph_queue::put_seat;
use graph_words::layout::*;
use graph_words::{put_count, put_job};
use graph_worker_words::{count_place, idle_worker};
use lent_graph::Graph;

// A link appends an arc to an empty list.
fn link_first(graph: &mut Graph, worker: u32, prerequisite: u32, arc: u32, job: u32)
    ensures same { Same graph.old graph.new }
    ensures rest { (graph.new.buckets.now ≡ graph.old.buckets.now) × (graph.new.queue.now ≡ graph.old.queue.now) }
    ensures stores { columns worker_shape graph.old.workers.now PLACE worker < none
        → words graph.new ≡ applied (LinkFirst prerequisite arc job) (words graph.old) worker }
{
    put_only_arc(graph.jobs, prerequisite, arc);
    new_arc(graph.arcs, arc, job);
    count_place(graph.workers, worker);
}

// A link appends an arc after the last of a list.
fn link_after(graph: &mut Graph, worker: u32, prerequisite: u32, last: u32, arc: u32, job: u32)
    ensures same { Same graph.old graph.new }
    ensures rest { (graph.new.buckets.now ≡ graph.old.buckets.now) × (graph.new.queue.now ≡ graph.old.queue.now) }
    ensures stores { columns worker_shape graph.old.workers.now PLACE worker < none
        → words graph.new ≡ applied (LinkAfter prerequisite last arc job) (words graph.old) worker }
{
    put_job(graph.jobs, prerequisite, LAST, arc);
    append_arc(graph.arcs, last, arc, job);
    count_place(graph.workers, worker);
}

// The plans that append an arc.
pub fn apply_link(graph: &mut Graph, worker: u32, plan: Plan)
    ensures same { Same graph.old graph.new }
    ensures rest { (graph.new.buckets.now ≡ graph.old.buckets.now) × (graph.new.queue.now ≡ graph.old.queue.now) }
    ensures stores { Linking plan → Stored plan worker (words graph.old) (words graph.new) }
{
    match plan {
        Plan::LinkFirst {
            prerequisite,
            arc,
            job,
        } => link_first(graph, worker, prerequisite, arc, job),
        Plan::LinkAfter {
            prerequisite,
            last,
            arc,
            job,
        } => link_after(graph, worker, prerequisite, last, arc, job),
        _ => {}
    }
}

// The add ends, and its job waits. A note spoils it.
fn settle(graph: &mut Graph, worker: u32, job: u32, count: u32)
    ensures same { Same graph.old graph.new }
    ensures stores { words graph.new ≡ applied (Settle job count) (words graph.old) worker }
{
    let note = graph.worker_word(worker, NOTE);
    put_count(graph.jobs, job, count, note);
    idle_worker(graph.workers, worker);
}

// The add ends, and its job is queued. A note spoils it.
fn settle_queue(graph: &mut Graph, worker: u32, job: u32, count: u32, seat: Seat)
    ensures same { Same graph.old graph.new }
    ensures rest { (graph.new.arcs.now ≡ graph.old.arcs.now) × (graph.new.buckets.now ≡ graph.old.buckets.now) }
    ensures stores { seat.cell < none
        → words graph.new ≡ applied (SettleQueue job count seat) (words graph.old) worker }
{
    let note = graph.worker_word(worker, NOTE);
    put_count(graph.jobs, job, count, note);
    put_seat(graph.queue, seat, job);
    idle_worker(graph.workers, worker);
}

// The plans that end an add.
pub fn apply_settle(graph: &mut Graph, worker: u32, plan: Plan)
    ensures same { Same graph.old graph.new }
    ensures rest { (graph.new.arcs.now ≡ graph.old.arcs.now) × (graph.new.buckets.now ≡ graph.old.buckets.now) }
    ensures stores { Settling plan → Stored plan worker (words graph.old) (words graph.new) }
{
    match plan {
        Plan::Settle { job, count } => settle(graph, worker, job, count),
        Plan::SettleQueue { job, count, seat } => settle_queue(graph, worker, job, count, seat),
        _ => {}
    }
}
