// What the last steps of an add plan: the links and the settling. Follows docs/RULES.md, "Steps" and "Turned-away
// calls". Each definition holds of all tables, and where a table is not read the contract holds with any.
#![tactic(auto)]

ghost use Rattle.std.specs.Prelude.{◌≡◌, List, ℕ};
ghost use Rattle.def_words.specs.Layout.{tables, view};
ghost use Rattle.def_words.specs.Words.{plan_append, plan_link, with_seat, plan_settle, plan_links};
ghost use Rattle.lent_graph.specs.Lent.{words};

use def_numbers::*;
use def_terms::Sizes;
use def_words::{Found, Plan, Seating};
use graph_find::find;
use graph_index::seat_for;
use graph_own::place_ok;
use graph_words::layout::*;
use graph_words::{header, job_word, less, name_word, worker_word};
use lent_graph::Graph;

// The arc has 64 bits: the first reserved arc may be none, and the sum with a place then passes 32 bits.
fn plan_append(
    sizes: Sizes,
    jobs: &[u32],
    arcs: &[u32],
    prerequisite: u32,
    arc: u64,
    job: u32,
) -> Plan
    ensures { (buckets queue workers : List ℕ)
        → result ≡ plan_append sizes (view (tables jobs.now arcs.now buckets queue workers))
        prerequisite arc job }
{
    let made = header(jobs, MADE);
    let reserved = header(arcs, RESERVED);
    let last = job_word(jobs, prerequisite, LAST);
    let kept = place_ok(last, reserved, sizes.arcs);
    let sound = (job < made) & (arc < (reserved as u64)) & kept;
    if sound {
        let arc = arc as u32;
        let first = last == NONE;
        if first {
            Plan::LinkFirst {
                prerequisite,
                arc,
                job,
            }
        } else {
            Plan::LinkAfter {
                prerequisite,
                last,
                arc,
                job,
            }
        }
    } else {
        Plan::Refuse { number: DAMAGED }
    }
}

// A link to what a look-up found.
pub fn plan_link(sizes: Sizes, jobs: &[u32], arcs: &[u32], arc: u64, job: u32, found: Found) -> Plan
    ensures { (buckets queue workers : List ℕ)
        → result ≡ plan_link sizes (view (tables jobs.now arcs.now buckets queue workers)) arc job
        found }
{
    match found {
        Found::At { job: prerequisite } => {
            let label = job_word(jobs, prerequisite, LABEL);
            let sound = label <= FINISHED;
            if sound {
                let finished = label == FINISHED;
                if finished {
                    let outcome = job_word(jobs, prerequisite, OUTCOME);
                    let told = outcome <= 1;
                    if told {
                        Plan::Tally { outcome }
                    } else {
                        Plan::Refuse { number: DAMAGED }
                    }
                } else {
                    plan_append(sizes, jobs, arcs, prerequisite, arc, job)
                }
            } else {
                Plan::Refuse { number: DAMAGED }
            }
        }
        Found::Missing => Plan::Refuse { number: DAMAGED },
        Found::Damaged => Plan::Refuse { number: DAMAGED },
    }
}

// The seat of the job in the queue, where its count reaches 0.
fn settle_queue(sizes: Sizes, jobs: &[u32], queue: &[u32], job: u32, count: u32) -> Plan
    ensures { (arcs buckets workers : List ℕ)
        → result ≡ with_seat sizes (view (tables jobs.now arcs buckets queue.now workers)) job
        (Plan.SettleQueue job count) }
{
    let seating = seat_for(sizes, jobs, queue, job);
    match seating {
        Seating::Seated { seat } => Plan::SettleQueue { job, count, seat },
        Seating::Unseated => Plan::Refuse { number: DAMAGED },
    }
}

// The job's count is read only where it is one: a read of none would lie past the table.
fn plan_settle(sizes: Sizes, jobs: &[u32], queue: &[u32], job: u32, tally: u32, listed: u32) -> Plan
    ensures { (arcs buckets workers : List ℕ)
        → result ≡ plan_settle sizes (view (tables jobs.now arcs buckets queue.now workers)) job tally
        listed }
{
    let none = job == NONE;
    if none {
        return Plan::Refuse { number: DAMAGED };
    }
    let count = job_word(jobs, job, COUNT);
    let sound = (count <= MOST_NAMES) & (tally <= count);
    if sound {
        let left = less(count, tally);
        let settles = (left == 0) & ((0 < tally) | (listed == 0));
        if settles {
            settle_queue(sizes, jobs, queue, job, left)
        } else {
            Plan::Settle { job, count: left }
        }
    } else {
        Plan::Refuse { number: DAMAGED }
    }
}

// An add that links its prerequisites, and then settles.
pub fn plan_links(graph: &Graph, worker: u32) -> Plan
    ensures { result ≡ plan_links graph.now.sizes (view (words graph.now)) worker }
{
    let place = worker_word(graph.workers, worker, PLACE);
    let count = worker_word(graph.workers, worker, LIST_COUNT);
    let job = worker_word(graph.workers, worker, OWN_JOB);
    if place < count {
        let first = worker_word(graph.workers, worker, OWN_ARC);
        let name = name_word(graph.workers, worker, place);
        let found = find(graph.sizes, graph.jobs, graph.buckets, name);
        let arc = (first as u64) + (place as u64);
        return plan_link(graph.sizes, graph.jobs, graph.arcs, arc, job, found);
    }
    let tally = worker_word(graph.workers, worker, TALLY);
    plan_settle(graph.sizes, graph.jobs, graph.queue, job, tally, count)
}
