// What a step is to do with the tables: it reads and judges, and stores nothing. Follows docs/RULES.md, "Steps" and
// "Turned-away calls". Each definition holds of all tables.
#![tactic(auto)]

ghost use Rattle.std.specs.Prelude.{◌≡◌};
ghost use Rattle.def_words.specs.Layout.{view};
ghost use Rattle.def_words.specs.Words.{plan_phase, plan_step};
ghost use Rattle.lent_graph.specs.Lent.{words};

mod enter_steps;

use def_numbers::*;
use def_words::Plan;
use enter_steps::plan_add;
use graph_finish_steps::{plan_mark, plan_notify};
use graph_link_steps::plan_links;
use graph_own::counters_ok;
use graph_words::layout::*;
use graph_words::worker_word;
use lent_graph::Graph;

// What the worker's phase asks for.
fn plan_phase(graph: &Graph, worker: u32) -> Plan
    ensures { result ≡ plan_phase graph.now.sizes (view (words graph.now)) worker }
{
    let phase = worker_word(graph.workers, worker, PHASE);
    if phase == IDLE {
        return Plan::Refuse {
            number: WORKER_IDLE,
        };
    }
    if !counters_ok(graph.sizes, graph.jobs, graph.arcs) {
        return Plan::Refuse { number: DAMAGED };
    }
    match phase {
        LOOKING => plan_add(graph, worker),
        LINKING => plan_links(graph, worker),
        MARKING => {
            let held = worker_word(graph.workers, worker, HELD);
            plan_mark(graph.sizes, graph.jobs, graph.arcs, held)
        }
        _ => {
            let arc = worker_word(graph.workers, worker, OWN_ARC);
            plan_notify(graph.sizes, graph.jobs, graph.arcs, graph.queue, arc)
        }
    }
}

pub fn plan_step(graph: &Graph, worker: u32) -> Plan
    ensures { result ≡ plan_step graph.now.sizes (words graph.now) worker }
{
    match graph.admit(worker) {
        Err(refusal) => Plan::Refuse {
            number: refusal.into(),
        },
        Ok(()) => plan_phase(graph, worker),
    }
}
