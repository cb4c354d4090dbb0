// How a finish run in one go ends once its notices have: what it answers, and its worker's words, which are stored
// once. Follows docs/RULES.md, "Steps". Nothing is required of a table; tables that a function is not lent stay,
// whatever they are.
ghost use Rattle.std.specs.Prelude.{◌≡◌, List, ℕ};
ghost use Rattle.def_terms.specs.Runs.{result_of};
ghost use Rattle.def_words.specs.Layout.{tables};
ghost use Rattle.def_words.specs.Words.{put_worker};
ghost use Rattle.def_fused.specs.FusedWorker.{notify_worker};
ghost use Rattle.fused_notices.specs.Notices.{closed};

use crate::notices::Ending;
use def_numbers::*;
use def_sheets::Entry;
use def_terms::Answer;
use graph_posted_add::{Progress, put_call};
use graph_records::put_bare_worker;
use graph_words::layout::*;

// A finish that has marked and is left half done at an arc: its note is its outcome, and it has no list.
fn put_notifying(workers: &mut [u32], worker: u32, note: u32, arc: u32)
    ensures { workers.new ≡ put_worker workers.old worker (notify_worker note arc) }
{
    let no_entry = Entry {
        name: 0,
        count: 0,
        class: 0,
        grower: 0,
        names: [0; 32],
    };
    let progress = Progress {
        phase: NOTIFYING,
        tally: 0,
        place: 0,
        job: NONE,
        arc,
        note,
    };
    put_call(workers, worker, NONE, &no_entry, progress);
}

// The notices have ended: what the finish answers, and its worker's words.
pub fn close(workers: &mut [u32], worker: u32, note: u32, ending: Ending) -> Answer
    ensures { ((jobs arcs buckets queue : List ℕ)
        → result_of result (tables jobs arcs buckets queue workers.new)
        ≡ closed ending note worker (tables jobs arcs buckets queue workers.old)) }
{
    match ending {
        Ending::Done => {
            put_bare_worker(workers, worker, IDLE, NONE, 0);
            Answer::Ended
        }
        Ending::Broken { arc } => {
            put_notifying(workers, worker, note, arc);
            Answer::Refused {
                number: DAMAGED,
                place: 0,
            }
        }
        Ending::Left { arc } => {
            put_notifying(workers, worker, note, arc);
            Answer::Going
        }
    }
}
