// The counters of a graph, the places below them, and the words that a worker keeps: the tests of them that a call
// makes before it does anything. Follows docs/RULES.md, "Turned-away calls", number 9.
#![tactic(auto)]

ghost use Rattle.std.specs.Prelude.{◌≡◌, ◌&&◌, List, ℕ, leb, length};
ghost use Rattle.def_words.specs.Columns.{offset};
ghost use Rattle.def_words.specs.Layout.{worker_shape, NAMES, tables, view};
ghost use Rattle.def_words.specs.Words.{place_ok, counters_ok, own_ok};

use def_numbers::*;
use def_terms::Sizes;
use graph_words::layout::*;
use graph_words::{header, worker_word};

// A place is none or in use: below its counter, and below the table's size.
pub fn place_ok(place: u32, counter: u32, size: u32) -> bool
    ensures { result ≡ place_ok place counter size }
{
    let none = place == NONE;
    if none {
        true
    } else {
        (place < counter) & (place < size)
    }
}

// How many jobs were made and arcs reserved is within the sizes. A call tests it once, before what its step reads.
pub fn counters_ok(sizes: Sizes, jobs: &[u32], arcs: &[u32]) -> bool
    ensures { (buckets queue workers : List ℕ)
        → result ≡ counters_ok sizes (view (tables jobs.now arcs.now buckets queue workers)) }
{
    (header(jobs, MADE) <= sizes.jobs) & (header(arcs, RESERVED) <= sizes.arcs)
}

// The worker's own words are sound. The tests of its places are branches: what follows a call knows what they said.
fn own_sound(sizes: Sizes, jobs: &[u32], arcs: &[u32], workers: &[u32], worker: u32) -> bool
    ensures { (buckets queue : List ℕ)
        → result ≡ own_ok sizes (view (tables jobs.now arcs.now buckets queue workers.now))
        worker }
{
    let made = header(jobs, MADE);
    let count = worker_word(workers, worker, LIST_COUNT);
    let phase = worker_word(workers, worker, PHASE) <= NOTIFYING;
    if phase {
        let held = place_ok(worker_word(workers, worker, HELD), made, sizes.jobs);
        if held {
            let call = (count <= MOST_NAMES)
                & (worker_word(workers, worker, OWN_CLASS) <= MOST_CLASS)
                & (worker_word(workers, worker, OWN_GROWER) <= MOST_GROWER)
                & (worker_word(workers, worker, TALLY) <= count)
                & (worker_word(workers, worker, PLACE) <= count);
            if call {
                let job = place_ok(worker_word(workers, worker, OWN_JOB), made, sizes.jobs);
                if job {
                    let arc = place_ok(
                        worker_word(workers, worker, OWN_ARC),
                        header(arcs, RESERVED),
                        sizes.arcs,
                    );
                    if arc {
                        worker_word(workers, worker, NOTE) <= 1
                    } else {
                        false
                    }
                } else {
                    false
                }
            } else {
                false
            }
        } else {
            false
        }
    } else {
        false
    }
}

// The worker's own words are sound, whatever its phase, and all are within the table. The buckets and the queue are not
// read: it holds with any.
pub fn own_ok(sizes: Sizes, jobs: &[u32], arcs: &[u32], workers: &[u32], worker: u32) -> bool
    ensures { (buckets queue : List ℕ)
        → result ≡ (leb (offset worker_shape worker NAMES) (length workers.now)
        && own_ok sizes (view (tables jobs.now arcs.now buckets queue workers.now))
        worker) }
{
    let within = (WORKER_HEAD as usize)
        + (WORKER_WIDTH as usize) * (worker as usize)
        + (NAMES as usize)
        <= workers.len();
    if within {
        own_sound(sizes, jobs, arcs, workers, worker)
    } else {
        false
    }
}
