// The store of an add's record, posted or half done: its worker's words with the arguments and the list of names.
// Follows docs/RULES.md, "Tables and their measures". A store past the table's end changes nothing.
#![tactic(auto)]

ghost use Rattle.std.specs.Prelude.{◌≡◌, [], ◌∷◌, ◌≤◌, ◌<◌};
ghost use Rattle.std.proofs.lemmas.List.Edits.{sets};
ghost use Rattle.def_numbers.specs.Numbers.{most_names};
ghost use Rattle.def_basics.specs.Base.{prefix};
ghost use Rattle.def_words.specs.Columns.{offset};
ghost use Rattle.def_words.specs.Layout.{worker_shape, PHASE, TALLY, NAMES};
ghost use Rattle.def_words.specs.Words.{put_worker, adding_worker};
ghost use Rattle.def_sheet_rows.specs.Arguments.{arguments_of};

use def_numbers::*;
use def_sheets::Entry;
use graph_records::{fill, record_at};
use graph_words::layout::*;
use graph_words::{put_word, put_worker, word};

// How far a call has come: its phase, the finished prerequisites, the place in its list, its job, its arc and its note.
#[derive(Clone, Copy)]
pub struct Progress {
    pub phase: u32,
    pub tally: u32,
    pub place: u32,
    pub job: u32,
    pub arc: u32,
    pub note: u32,
}

// A worker's phase, its hold, and the arguments of its call.
fn put_arguments(workers: &mut [u32], worker: u32, phase: u32, held: u32, entry: &Entry)
    ensures { workers.new
        ≡ sets workers.old (offset worker_shape worker PHASE)
        (phase ∷ held ∷ entry.now.name ∷ entry.now.count ∷ entry.now.class ∷ entry.now.grower ∷ []) }
{
    put_worker(workers, worker, PHASE, phase);
    put_worker(workers, worker, HELD, held);
    put_worker(workers, worker, OWN_NAME, entry.name);
    put_worker(workers, worker, LIST_COUNT, entry.count);
    put_worker(workers, worker, OWN_CLASS, entry.class);
    put_worker(workers, worker, OWN_GROWER, entry.grower);
}

// How far a call has come, but for its phase.
fn put_reached(workers: &mut [u32], worker: u32, progress: Progress)
    ensures { workers.new
        ≡ sets workers.old (offset worker_shape worker TALLY)
        (progress.tally ∷ progress.place ∷ progress.job ∷ progress.arc ∷ progress.note ∷ []) }
{
    put_worker(workers, worker, TALLY, progress.tally);
    put_worker(workers, worker, PLACE, progress.place);
    put_worker(workers, worker, OWN_JOB, progress.job);
    put_worker(workers, worker, OWN_ARC, progress.arc);
    put_worker(workers, worker, NOTE, progress.note);
}

// Where a worker's list begins.
fn names_at(worker: u32) -> usize
    ensures { result ≡ offset worker_shape worker NAMES }
{
    record_at(worker) + (NAMES as usize)
}

// The listed names, of which a record keeps the first 32, and 0 past them.
fn put_names(workers: &mut [u32], worker: u32, entry: &Entry)
    ensures { workers.new
        ≡ sets workers.old (offset worker_shape worker NAMES)
        (prefix most_names (prefix entry.now.count entry.now.names)) }
{
    let from = names_at(worker);
    let listed = entry.count.min(MOST_NAMES) as usize;
    for (i, name) in entry.names[..listed].iter().enumerate() {
        put_word(workers, from + i, *name);
    }
    fill(workers, from + listed, (MOST_NAMES as usize) - listed, 0);
}

// A worker's whole record, with a call that has come so far.
pub fn put_call(workers: &mut [u32], worker: u32, held: u32, entry: &Entry, progress: Progress)
    ensures { workers.new
        ≡ put_worker workers.old worker
        (progress.phase ∷ held ∷ entry.now.name ∷ entry.now.count ∷ entry.now.class ∷ entry.now.grower
        ∷ progress.tally ∷ progress.place ∷ progress.job ∷ progress.arc ∷ progress.note
        ∷ prefix most_names (prefix entry.now.count entry.now.names)) }
{
    put_arguments(workers, worker, progress.phase, held, entry);
    put_reached(workers, worker, progress);
    put_names(workers, worker, entry);
}

// The words of a posted add, at its beginning.
pub fn put_adding_worker(workers: &mut [u32], worker: u32, held: u32, entry: &Entry)
    ensures { workers.new
        ≡ put_worker workers.old worker (adding_worker held (arguments_of entry.now)) }
{
    let progress = Progress {
        phase: LOOKING,
        tally: 0,
        place: 0,
        job: NONE,
        arc: NONE,
        note: 0,
    };
    put_call(workers, worker, held, entry, progress);
}
