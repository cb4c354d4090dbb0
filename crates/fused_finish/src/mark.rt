// The mark of a finish run in one go, with its notices and the worker's words, which are stored once, at the end.
// Follows docs/RULES.md, "Steps". Nothing is required of a table; tables that the function is not lent stay, whatever
// they are.
ghost use Rattle.std.specs.Prelude.{◌≡◌, List, ℕ};
ghost use Rattle.def_terms.specs.Runs.{result_of};
ghost use Rattle.def_words.specs.Columns.{columns};
ghost use Rattle.def_words.specs.Layout.{worker_shape, HELD, tables, view};
ghost use Rattle.def_words.specs.Words.{plan_mark};
ghost use Rattle.def_fused.specs.FusedFinish.{mark_in};

use def_numbers::*;
use def_terms::{Answer, Sizes};
use def_words::Plan;
use fused_notices::closing::close;
use fused_notices::notices::notices;
use graph_finish_steps::plan_mark;
use graph_records::put_bare_worker;
use graph_words::layout::*;
use graph_words::put_outcome;

// The mark of the held job with the outcome that the note has, and its notices. A job that nothing waits for has none.
pub fn mark_and_tell(
    sizes: Sizes,
    jobs: &mut [u32],
    arcs: &[u32],
    queue: &mut [u32],
    workers: &mut [u32],
    worker: u32,
    held: u32,
    note: u32,
) -> Answer
    ensures { (held ≡ columns worker_shape workers.old HELD worker → (buckets : List ℕ)
        → result_of result (tables jobs.new arcs.now buckets queue.new workers.new)
        ≡ mark_in sizes
        (tables jobs.old arcs.now buckets queue.old workers.old) worker
        note (plan_mark sizes (view (tables jobs.old arcs.now buckets queue.old
        workers.old)) held)) }
{
    let Plan::Mark { job, first } = plan_mark(sizes, jobs, arcs, held) else {
        put_bare_worker(workers, worker, MARKING, held, note);
        return Answer::Refused {
            number: DAMAGED,
            place: 0,
        };
    };
    put_outcome(jobs, job, note);
    if first == NONE {
        put_bare_worker(workers, worker, IDLE, NONE, 0);
        return Answer::Ended;
    }
    let ending = notices(sizes, jobs, arcs, queue, note, first);
    close(workers, worker, note, ending)
}
