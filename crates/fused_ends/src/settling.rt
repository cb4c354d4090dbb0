// The end of an add run in one go: its job settles, or a damaged word stops it. Follows docs/RULES.md, "Steps".
// Nothing is required of a table; tables that a function is not lent stay, whatever they are.
ghost use Rattle.std.specs.Prelude.{◌≡◌, List, ℕ};
ghost use Rattle.def_terms.specs.Runs.{Result, result_of};
ghost use Rattle.def_words.specs.Layout.{Tables, tables};
ghost use Rattle.def_fused.specs.FusedAdd.{settle_in};
ghost use Rattle.fused_job.specs.Linking.{links_of};
ghost use Rattle.fused_job.specs.declared.links.Linked.{Linked};
ghost use Rattle.fused_ends.specs.Settling.{or_stop, settling};
ghost use Rattle.def_sheet_rows.specs.Arguments.{arguments_of};

use crate::stops::stop;
use def_sheets::Entry;
use def_terms::{Answer, Sizes};
use def_words::Seating;
use fused_job::entering::NewJob;
use fused_job::links::Linked;
use graph_index::seat_for;
use graph_posted_add::Progress;
use graph_queue::put_seat;
use graph_records::put_bare_worker;
use graph_words::layout::*;
use graph_words::put_count;
use graph_worker_words::first_arc;

// The job's remaining count falls by the tally, a note spoils it, and it is queued or not. Where the links stopped, or no
// seat is found, nothing is stored, and the error says how far the links have come.
fn settle(
    sizes: Sizes,
    jobs: &mut [u32],
    queue: &mut [u32],
    job: u32,
    count: u32,
    linked: Result<Linked, Linked>,
) -> Result<(), Linked>
    ensures { ((arcs buckets workers : List ℕ) (w held : ℕ) (stopped : Linked → Tables → Result Tables)
        → or_stop result w held (tables jobs.new arcs buckets queue.new workers) stopped
        ≡ settling sizes w held job count linked (tables jobs.old arcs buckets queue.old workers) stopped) }
{
    let linked = linked?;
    let left = count.saturating_sub(linked.tally);
    let settles = (left == 0) & ((0 < linked.tally) | (count == 0));
    if !settles {
        put_count(jobs, job, left, linked.note);
        return Ok(());
    }
    let Seating::Seated { seat } = seat_for(sizes, jobs, queue, job) else {
        return Err(linked);
    };
    put_count(jobs, job, left, linked.note);
    put_seat(queue, seat, job);
    Ok(())
}

// The add ends as its links did: its job settles, or the add is half done from where they stopped.
pub fn settle_add(
    sizes: Sizes,
    jobs: &mut [u32],
    queue: &mut [u32],
    workers: &mut [u32],
    worker: u32,
    held: u32,
    entry: Entry,
    new: NewJob,
    linked: Result<Linked, Linked>,
) -> Answer
    ensures { ((arcs buckets : List ℕ)
        → result_of result (tables jobs.new arcs buckets queue.new workers.new)
        ≡ settle_in sizes worker (arguments_of entry) held new.job new.arc
        (links_of linked (tables jobs.old arcs buckets queue.old workers.old))) }
{
    match settle(sizes, jobs, queue, new.job, entry.count, linked) {
        Ok(()) => {
            put_bare_worker(workers, worker, IDLE, held, 0);
            Answer::Ended
        }
        Err(linked) => {
            let progress = Progress {
                phase: LINKING,
                tally: linked.tally,
                place: linked.place,
                job: new.job,
                arc: first_arc(entry.count, new.arc),
                note: linked.note,
            };
            stop(workers, worker, held, entry, progress)
        }
    }
}
