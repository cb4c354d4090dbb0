// What a get is to do with the tables: it reads and judges, and stores nothing. Follows docs/RULES.md, "Steps" and
// "Turned-away calls". Each definition holds of all tables.
#![tactic(auto)]

ghost use Rattle.std.specs.Prelude.{◌≡◌};
ghost use Rattle.def_words.specs.Layout.{view};
ghost use Rattle.def_words.specs.Words.{plan_take, plan_queue, plan_get, plan_get_of};
ghost use Rattle.lent_graph.specs.Lent.{words};

use def_numbers::*;
use def_terms::HandOut;
use def_words::{GetPlan, Seating};
use graph_first::first_seat;
use graph_own::counters_ok;
use graph_words::layout::*;
use graph_words::{header, job_word, queue_word, worker_word};
use lent_graph::Graph;

// The job of the index's first cell. Its words are read only where that cell waits.
fn plan_take(graph: &Graph) -> GetPlan
    ensures { result ≡ plan_take (view (words graph.now)) }
{
    match first_seat(graph.jobs, graph.queue) {
        Seating::Seated { seat } => {
            let cell = queue_word(graph.queue, 0, SLOT);
            let job = queue_word(graph.queue, cell, QUEUED);
            let spoiled = job_word(graph.jobs, job, SPOILED);
            let sound = (job_word(graph.jobs, job, LABEL) == UNEXECUTED) & (spoiled <= 1);
            if !sound {
                return GetPlan::RefuseGet { number: DAMAGED };
            }
            let out = HandOut {
                job,
                name: job_word(graph.jobs, job, NAME),
                spoiled: spoiled == 1,
            };
            GetPlan::Take { out, seat }
        }
        Seating::Unseated => GetPlan::RefuseGet { number: DAMAGED },
    }
}

fn plan_queue(graph: &Graph) -> GetPlan
    ensures { result ≡ plan_queue graph.now.sizes (view (words graph.now)) }
{
    let taken = header(graph.queue, TAKEN);
    let put = header(graph.queue, PUT);
    let sound = counters_ok(graph.sizes, graph.jobs, graph.arcs)
        & (taken <= put)
        & (put <= graph.sizes.jobs);
    if !sound {
        return GetPlan::RefuseGet { number: DAMAGED };
    }
    if taken == put {
        return GetPlan::Wait;
    }
    plan_take(graph)
}

fn plan_admitted_get(graph: &Graph, worker: u32) -> GetPlan
    ensures { result ≡ plan_get graph.now.sizes (view (words graph.now)) worker }
{
    if worker_word(graph.workers, worker, PHASE) != IDLE {
        return GetPlan::RefuseGet { number: HALF_DONE };
    }
    if worker_word(graph.workers, worker, HELD) != NONE {
        return GetPlan::RefuseGet {
            number: ALREADY_HOLDING,
        };
    }
    plan_queue(graph)
}

pub fn plan_get(graph: &Graph, worker: u32) -> GetPlan
    ensures { result ≡ plan_get_of graph.now.sizes (words graph.now) worker }
{
    match graph.admit(worker) {
        Err(refusal) => GetPlan::RefuseGet {
            number: refusal.into(),
        },
        Ok(()) => plan_admitted_get(graph, worker),
    }
}
