// What a worker holds, and the call that it has half done: it reads the tables, and stores nothing.
// Follows docs/RULES.md, "Tables and their measures" and "Turned-away calls".
#![tactic(auto)]

ghost use Rattle.std.specs.Prelude.{◌≡◌, List, ℕ};
ghost use Rattle.def_numbers.specs.Kinds.{call_number};
ghost use Rattle.def_words.specs.Layout.{tables, view};
ghost use Rattle.def_worker_state.specs.Held.{call_of, adds_of, refused, holding_of, counted, held_words};

use def_numbers::*;
use def_terms::Sizes;
use def_worker_state::Holding;
use graph_own::{counters_ok, own_ok};
use graph_sizes::sizes_fit;
use graph_words::layout::*;
use graph_words::{job_word, worker_word};

// The call of a phase.
fn call_of(phase: u32) -> Call
    ensures { call_number result ≡ call_of phase }
{
    match phase {
        IDLE => Call::None,
        LOOKING | LINKING => Call::Add,
        _ => Call::Finish,
    }
}

// The name of the add half done, of the worker's words: 0 where its call is none.
fn adds_of(call: Call, name: u32) -> u32
    ensures { result ≡ adds_of (call_number call) name }
{
    if call == Call::Add { name } else { 0 }
}

fn refused(number: u32) -> Holding
    ensures { result ≡ refused number }
{
    Holding {
        number,
        ..Holding::default()
    }
}

// The held job's name and spoiled word are read only where there is one.
#[tactic(auto, unfolding(def_worker_state::specs::Held::holding_of))]
fn holding_of(jobs: &[u32], workers: &[u32], worker: u32) -> Holding
    ensures { (arcs buckets queue : List ℕ)
        → result ≡ holding_of (view (tables jobs.now arcs buckets queue workers.now)) worker }
{
    let call = call_of(worker_word(workers, worker, PHASE));
    let no_job = Holding {
        call: call as u32,
        adds: adds_of(call, worker_word(workers, worker, OWN_NAME)),
        ..Holding::default()
    };
    let held = worker_word(workers, worker, HELD);
    if held == NONE {
        return no_job;
    }
    let spoiled = job_word(jobs, held, SPOILED);
    if 1 < spoiled {
        return refused(DAMAGED);
    }
    Holding {
        holds: 1,
        job: held,
        name: job_word(jobs, held, NAME),
        spoiled,
        ..no_job
    }
}

// The counters are read too, as every call with a worker reads them.
fn counted(sizes: Sizes, jobs: &[u32], arcs: &[u32], workers: &[u32], worker: u32) -> Holding
    ensures { (buckets queue : List ℕ)
        → result ≡ counted sizes (view (tables jobs.now arcs.now buckets queue workers.now))
        worker }
{
    if counters_ok(sizes, jobs, arcs) {
        holding_of(jobs, workers, worker)
    } else {
        refused(DAMAGED)
    }
}

// What the worker holds, and the call that it has half done.
pub fn held(
    sizes: Sizes,
    jobs: &[u32],
    arcs: &[u32],
    buckets: &[u32],
    queue: &[u32],
    workers: &[u32],
    worker: u32,
) -> Holding
    ensures { result ≡ held_words sizes (tables jobs.now arcs.now buckets.now queue.now workers.now) worker }
{
    if !sizes_fit(sizes, jobs, arcs, buckets, queue, workers) {
        return refused(WRONG_SIZE);
    }
    if sizes.workers <= worker {
        return refused(NO_SUCH_WORKER);
    }
    if !own_ok(sizes, jobs, arcs, workers, worker) {
        return refused(DAMAGED);
    }
    counted(sizes, jobs, arcs, workers, worker)
}
