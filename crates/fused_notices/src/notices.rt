// The notices of a finish in one go: along each arc of the marked job, oldest first, the dependent's remaining count
// falls by 1, and a failed finish spoils it. The worker's words are neither read nor stored. Follows docs/RULES.md,
// "Steps". Each definition holds of all tables, and tables that a function is not lent stay, whatever they are.
ghost use Rattle.std.specs.Prelude.{◌≡◌, List, ℕ};
ghost use Rattle.def_terms.specs.Runs.{Result};
ghost use Rattle.def_words.specs.Layout.{Tables, tables, view};
ghost use Rattle.def_words.specs.Words.{plan_notify};
ghost use Rattle.def_fused.specs.FusedFinish.{notify_by, notify_in};
ghost use Rattle.fused_notices.specs.Notices.{told_to, closed};

use def_terms::Sizes;
use def_words::Plan;
use graph_finish_steps::plan_notify;
use graph_queue::put_seat;
use graph_words::layout::*;
use graph_words::put_count;

// How the notices ended: after the last arc, at a damaged word with the arc that is left, or after as many arcs as
// there can be, which only a damaged list has.
#[derive(Clone, Copy)]
pub enum Ending {
    Done,
    Broken { arc: u32 },
    Left { arc: u32 },
}

// The notice along one arc, of a finish whose note is its outcome: planned, and stored. The next arc, or the place none
// after the last one; nothing, and nothing stored, at a damaged word.
fn tell(
    sizes: Sizes,
    jobs: &mut [u32],
    arcs: &[u32],
    queue: &mut [u32],
    note: u32,
    arc: u32,
) -> Option<u32>
    ensures { (buckets workers : List ℕ) (w : ℕ) (next : ℕ → Tables → Result Tables)
        → told_to result note arc w (tables jobs.new arcs.now buckets queue.new workers)
        next
        ≡ notify_by (plan_notify sizes (view (tables jobs.old arcs.now buckets queue.old
        workers)) arc) note arc w
        (tables jobs.old arcs.now buckets queue.old workers) next }
{
    match plan_notify(sizes, jobs, arcs, queue, arc) {
        Plan::Notify { job, count, next } => {
            put_count(jobs, job, count, note);
            Some(next)
        }
        Plan::NotifyQueue {
            job,
            count,
            next,
            seat,
        } => {
            put_count(jobs, job, count, note);
            put_seat(queue, seat, job);
            Some(next)
        }
        _ => None,
    }
}

// The notices along the arcs from `first` on, of which there are at most as many as the table holds.
pub fn notices(
    sizes: Sizes,
    jobs: &mut [u32],
    arcs: &[u32],
    queue: &mut [u32],
    note: u32,
    first: u32,
) -> Ending
    ensures { (buckets workers : List ℕ) (w : ℕ)
        → closed result note w (tables jobs.new arcs.now buckets queue.new workers)
        ≡ notify_in sizes.arcs sizes w note first
        (tables jobs.old arcs.now buckets queue.old workers) }
{
    let mut arc = first;
    for _ in 0..sizes.arcs {
        let Some(next) = tell(sizes, jobs, arcs, queue, note, arc) else {
            return Ending::Broken { arc };
        };
        if next == NONE {
            return Ending::Done;
        }
        arc = next;
    }
    Ending::Left { arc }
}
