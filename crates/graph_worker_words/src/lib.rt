// What a step stores in its worker's record: the call goes on, or ends and leaves the worker idle. Follows
// docs/RULES.md, "Steps".
#![tactic(auto)]

ghost use Rattle.std.specs.Prelude.{◌≡◌, ◌+◌, ◌<◌, ◌≤◌, ◌==◌};
ghost use Rattle.def_basics.specs.Base.{pick};
ghost use Rattle.def_words.specs.Columns.{columns, put};
ghost use Rattle.def_words.specs.Layout.{none, worker_shape, PHASE, HELD, LIST_COUNT, TALLY, PLACE, OWN_JOB, OWN_ARC};
ghost use Rattle.def_words.specs.Layout.{NOTE};
ghost use Rattle.def_words.specs.Layout.{IDLE, LINKING, NOTIFYING, bare_worker};
ghost use Rattle.def_words.specs.Words.{put_worker, first_arc, noted, marked_worker};

use graph_records::put_bare_worker;
use graph_words::layout::*;
use graph_words::{put_worker, worker_word};

// The sum of two words, where it is a word.
pub fn sum(a: u32, b: u32) -> u32
    ensures { a + b ≤ none → result ≡ a + b }
{
    a.wrapping_add(b)
}

// The call ends: the worker is idle, and its hold stays.
pub fn idle_worker(workers: &mut [u32], worker: u32)
    ensures { workers.new
        ≡ put_worker workers.old worker
        (bare_worker IDLE (columns worker_shape workers.old HELD worker) 0) }
{
    let held = worker_word(workers, worker, HELD);
    put_bare_worker(workers, worker, IDLE, held, 0);
}

// The note after a link to a finished job of an outcome.
pub fn note_of(outcome: u32, note: u32) -> u32
    ensures { result ≡ noted outcome note }
{
    if outcome == 1 { 1 } else { note }
}

// The call goes on to the next name of its list.
pub fn count_place(workers: &mut [u32], worker: u32)
    ensures { columns worker_shape workers.old PLACE worker < none
        → workers.new ≡ put worker_shape workers.old worker PLACE
        (columns worker_shape workers.old PLACE worker + 1) }
{
    let place = worker_word(workers, worker, PLACE);
    put_worker(workers, worker, PLACE, sum(place, 1));
}

// The same, and one more finished prerequisite, of this outcome.
pub fn count_tally(workers: &mut [u32], worker: u32, outcome: u32)
    ensures { columns worker_shape workers.old PLACE worker < none
        → columns worker_shape workers.old TALLY worker < none
        → workers.new ≡ put worker_shape (put worker_shape
        (put worker_shape workers.old worker PLACE
        (columns worker_shape workers.old PLACE worker + 1)) worker TALLY
        (columns worker_shape workers.old TALLY worker + 1)) worker NOTE
        (noted outcome (columns worker_shape workers.old NOTE worker)) }
{
    let tally = worker_word(workers, worker, TALLY);
    let note = note_of(outcome, worker_word(workers, worker, NOTE));
    count_place(workers, worker);
    put_worker(workers, worker, TALLY, sum(tally, 1));
    put_worker(workers, worker, NOTE, note);
}

// The first reserved arc, or none where none was reserved.
pub fn first_arc(count: u32, arc: u32) -> u32
    ensures { result ≡ first_arc count arc }
{
    if count == 0 { NONE } else { arc }
}

// The add has entered its job, and links from the first name on.
pub fn enter_worker(workers: &mut [u32], worker: u32, job: u32, arc: u32)
    ensures { workers.new
        ≡ put worker_shape (put worker_shape
        (put worker_shape (put worker_shape workers.old worker PHASE LINKING) worker PLACE 0) worker OWN_JOB
        job) worker OWN_ARC (first_arc (columns worker_shape workers.old LIST_COUNT worker) arc) }
{
    let first = first_arc(worker_word(workers, worker, LIST_COUNT), arc);
    put_worker(workers, worker, PHASE, LINKING);
    put_worker(workers, worker, PLACE, 0);
    put_worker(workers, worker, OWN_JOB, job);
    put_worker(workers, worker, OWN_ARC, first);
}

// The finish has marked its job: it notifies from its first arc on, or ends.
pub fn mark_worker(workers: &mut [u32], worker: u32, first: u32)
    ensures { workers.new ≡ marked_worker first worker workers.old }
{
    if first == NONE {
        put_bare_worker(workers, worker, IDLE, NONE, 0);
    } else {
        put_worker(workers, worker, PHASE, NOTIFYING);
        put_worker(workers, worker, HELD, NONE);
        put_worker(workers, worker, OWN_ARC, first);
    }
}

// The finish goes on to its next arc, or ends.
pub fn arcs_from(workers: &mut [u32], worker: u32, next: u32)
    ensures { workers.new
        ≡ pick (next == none) (put_worker workers.old worker
        (bare_worker IDLE (columns worker_shape workers.old HELD worker) 0))
        (put worker_shape workers.old worker OWN_ARC next) }
{
    if next == NONE {
        idle_worker(workers, worker);
    } else {
        put_worker(workers, worker, OWN_ARC, next);
    }
}
