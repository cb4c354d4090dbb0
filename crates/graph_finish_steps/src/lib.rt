// What the steps of a finish plan: the mark, and the notice along each arc. Follows docs/RULES.md, "Steps" and
// "Turned-away calls". Each definition holds of all tables, and where a table is not read the contract holds with any.
#![tactic(auto)]

ghost use Rattle.std.specs.Prelude.{◌≡◌, List, ℕ};
ghost use Rattle.def_words.specs.Layout.{tables, view};
ghost use Rattle.def_words.specs.Words.{plan_mark, plan_notify, with_seat};

use def_numbers::*;
use def_terms::Sizes;
use def_words::{Plan, Seating};
use graph_index::seat_for;
use graph_own::place_ok;
use graph_words::layout::*;
use graph_words::{arc_word, header, job_word, less};

// The job's words are read only where it is one: a read of none would lie past the table.
pub fn plan_mark(sizes: Sizes, jobs: &[u32], arcs: &[u32], job: u32) -> Plan
    ensures { (buckets queue workers : List ℕ)
        → result ≡ plan_mark sizes (view (tables jobs.now arcs.now buckets queue workers)) job }
{
    let none = job == NONE;
    if none {
        return Plan::Refuse { number: DAMAGED };
    }
    let label = job_word(jobs, job, LABEL);
    let first = job_word(jobs, job, FIRST);
    let kept = place_ok(first, header(arcs, RESERVED), sizes.arcs);
    let sound = (label == EXECUTING) & kept;
    if sound {
        Plan::Mark { job, first }
    } else {
        Plan::Refuse { number: DAMAGED }
    }
}

// The seat of the job in the queue, where its count reaches 0.
fn notify_queue(sizes: Sizes, jobs: &[u32], queue: &[u32], job: u32, count: u32, next: u32) -> Plan
    ensures { (arcs buckets workers : List ℕ)
        → result ≡ with_seat sizes (view (tables jobs.now arcs buckets queue.now workers)) job
        (Plan.NotifyQueue job count next) }
{
    let seating = seat_for(sizes, jobs, queue, job);
    match seating {
        Seating::Seated { seat } => Plan::NotifyQueue {
            job,
            count,
            next,
            seat,
        },
        Seating::Unseated => Plan::Refuse { number: DAMAGED },
    }
}

// The dependent's count is read only where its number is that of a job.
pub fn plan_notify(sizes: Sizes, jobs: &[u32], arcs: &[u32], queue: &[u32], arc: u32) -> Plan
    ensures { (buckets workers : List ℕ)
        → result ≡ plan_notify sizes (view (tables jobs.now arcs.now buckets
        queue.now workers)) arc }
{
    let none = arc == NONE;
    if none {
        return Plan::Refuse { number: DAMAGED };
    }
    let job = arc_word(arcs, arc, DEPENDENT);
    let next = arc_word(arcs, arc, AFTER);
    let known = job < header(jobs, MADE);
    if known {} else {
        return Plan::Refuse { number: DAMAGED };
    }
    let count = job_word(jobs, job, COUNT);
    let kept = place_ok(next, header(arcs, RESERVED), sizes.arcs);
    let sound = kept & (1 <= count) & (count <= MOST_NAMES);
    if sound {
        let left = less(count, 1);
        let last = count == 1;
        if last {
            notify_queue(sizes, jobs, queue, job, left, next)
        } else {
            Plan::Notify {
                job,
                count: left,
                next,
            }
        }
    } else {
        Plan::Refuse { number: DAMAGED }
    }
}
