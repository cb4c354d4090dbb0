// Whether the graph is drained: it reads the tables, and stores nothing.
// Follows docs/RULES.md, "Tables and their measures" and "Turned-away calls".
#![tactic(auto)]

ghost use Rattle.std.specs.Prelude.{◌≡◌, true};
ghost use Rattle.def_words.specs.Columns.{columns};
ghost use Rattle.def_words.specs.Layout.{worker_shape, view, sizes_fit, tables};
ghost use Rattle.def_words.specs.Words.{own_ok};
ghost use Rattle.def_worker_state.specs.Drained.{every, free, refused, judged, drained_words};

use def_numbers::*;
use def_terms::Sizes;
use def_worker_state::Drained;
use graph_own::{counters_ok, own_ok};
use graph_sizes::sizes_fit;
use graph_words::layout::*;
use graph_words::{header, worker_word};

// Every worker's own words are sound. No worker is passed over, so that there is one way through.
fn all_sound(
    sizes: Sizes,
    jobs: &[u32],
    arcs: &[u32],
    buckets: &[u32],
    queue: &[u32],
    workers: &[u32],
) -> bool
    requires { sizes_fit sizes (tables jobs.now arcs.now buckets.now queue.now workers.now) ≡ true }
    ensures { result ≡ every (own_ok sizes (view (tables jobs.now arcs.now buckets.now queue.now workers.now))) sizes.workers }
{
    let mut sound = true;
    for worker in 0..sizes.workers {
        sound &= own_ok(sizes, jobs, arcs, workers, worker);
    }
    sound
}

// Each of the first `count` workers is idle and holds nothing.
fn all_free(workers: &[u32], count: u32) -> bool
    ensures { result ≡ every (free (columns worker_shape workers.now)) count }
{
    let mut all = true;
    for worker in 0..count {
        all &= (worker_word(workers, worker, PHASE) == IDLE)
            & (worker_word(workers, worker, HELD) == NONE);
    }
    all
}

fn refused(number: u32) -> Drained
    ensures { result ≡ refused number }
{
    Drained {
        number,
        ..Drained::default()
    }
}

fn judged(done: bool) -> Drained
    ensures { result ≡ judged done }
{
    Drained {
        drained: u32::from(done),
        ..Drained::default()
    }
}

// Whether the queue is empty and every worker is idle and holds nothing.
pub fn drained(
    sizes: Sizes,
    jobs: &[u32],
    arcs: &[u32],
    buckets: &[u32],
    queue: &[u32],
    workers: &[u32],
) -> Drained
    ensures { result ≡ drained_words sizes (tables jobs.now arcs.now buckets.now queue.now workers.now) }
{
    if !sizes_fit(sizes, jobs, arcs, buckets, queue, workers) {
        return refused(WRONG_SIZE);
    }
    let taken = header(queue, TAKEN);
    let put = header(queue, PUT);
    let sound = all_sound(sizes, jobs, arcs, buckets, queue, workers)
        & (counters_ok(sizes, jobs, arcs) & ((taken <= put) & (put <= sizes.jobs)));
    if !sound {
        return refused(DAMAGED);
    }
    judged((taken == put) & all_free(workers, sizes.workers))
}
