// How an add that is run in one go leaves its worker: idle, or half done at a damaged word. Its words are stored once.
// Follows docs/RULES.md, "Steps" and "Turned-away calls". The tables that a function is not lent stay, whatever they
// are.
ghost use Rattle.std.specs.Prelude.{◌≡◌, List, ℕ};
ghost use Rattle.def_terms.specs.Runs.{result_of};
ghost use Rattle.def_terms.specs.declared.Answer.TheVariants.{Refused};
ghost use Rattle.def_words.specs.Layout.{none, LOOKING, tables};
ghost use Rattle.def_fused.specs.FusedWorker.{idled_with, add_worker, halted};
ghost use Rattle.def_sheet_rows.specs.Arguments.{arguments_of};

use def_numbers::*;
use def_sheets::Entry;
use def_terms::Answer;
use graph_posted_add::{Progress, put_call};
use graph_records::put_bare_worker;
use graph_words::layout::*;

// The add is turned away, and its worker is idle.
pub fn turn_away(workers: &mut [u32], worker: u32, held: u32, number: u32, place: u32) -> Answer
    ensures { ((jobs arcs buckets queue : List ℕ)
        → result_of result (tables jobs arcs buckets queue workers.new)
        ≡ result_of (Refused number place)
        (idled_with (tables jobs arcs buckets queue workers.old) worker held)) }
{
    put_bare_worker(workers, worker, IDLE, held, 0);
    Answer::Refused { number, place }
}

// A damaged word stops the add, which stays half done: how far it has come is kept.
pub fn stop(workers: &mut [u32], worker: u32, held: u32, entry: Entry, progress: Progress) -> Answer
    ensures { ((jobs arcs buckets queue : List ℕ)
        → result_of result (tables jobs arcs buckets queue workers.new)
        ≡ halted (tables jobs arcs buckets queue workers.old) worker
        (add_worker progress.phase held (arguments_of entry) progress.tally progress.place progress.job
        progress.arc progress.note)) }
{
    put_call(workers, worker, held, &entry, progress);
    Answer::Refused {
        number: DAMAGED,
        place: 0,
    }
}

// The same in its look-ups, at a place of its list or at its own name, which comes after them.
pub fn stop_looking(workers: &mut [u32], worker: u32, held: u32, entry: Entry, place: u32) -> Answer
    ensures { ((jobs arcs buckets queue : List ℕ)
        → result_of result (tables jobs arcs buckets queue workers.new)
        ≡ halted (tables jobs arcs buckets queue workers.old) worker
        (add_worker LOOKING held (arguments_of entry) 0 place none none 0)) }
{
    let progress = Progress {
        phase: LOOKING,
        tally: 0,
        place,
        job: NONE,
        arc: NONE,
        note: 0,
    };
    stop(workers, worker, held, entry, progress)
}
