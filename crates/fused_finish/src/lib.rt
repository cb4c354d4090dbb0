// A finish of an idle worker in one go: the mark, then each notice, and the worker's words stored once, at the end.
// Follows docs/RULES.md, "Steps" and "Turned-away calls". Nothing is required: the definition holds of all tables.
#![tactic(auto)]

ghost use Rattle.std.specs.Prelude.{◌≡◌};
ghost use Rattle.def_terms.specs.Terms.{finish_of};
ghost use Rattle.def_terms.specs.Runs.{result_of};
ghost use Rattle.def_words.specs.Layout.{as_lent, as_left};
ghost use Rattle.def_fused.specs.FusedFinish.{finish_if_idle};

mod mark;

use def_numbers::*;
use def_terms::{Answer, Sizes, bit};
use graph_judge::judge_outcome;
use graph_words::layout::*;
use graph_words::{job_word, worker_word};
use mark::mark_and_tell;

// Finishes the job of a name, which the worker holds, failed or good. Of a worker that is half done it answers 3, and
// changes nothing.
pub fn finish_if_idle(
    sizes: Sizes,
    jobs: &mut [u32],
    arcs: &mut [u32],
    buckets: &mut [u32],
    queue: &mut [u32],
    workers: &mut [u32],
    worker: u32,
    name: u32,
    failed: bool,
) -> Answer
    ensures { result_of result (as_left jobs arcs buckets queue workers)
        ≡ finish_if_idle sizes (as_lent jobs arcs buckets queue workers) worker (finish_of name failed) }
{
    if worker_word(workers, worker, PHASE) != IDLE {
        return Answer::Refused {
            number: HALF_DONE,
            place: 0,
        };
    }
    let held = worker_word(workers, worker, HELD);
    if held == NONE {
        return Answer::Refused {
            number: NOT_HELD,
            place: 0,
        };
    }
    if job_word(jobs, held, NAME) != name {
        return Answer::Refused {
            number: NOT_HELD,
            place: 0,
        };
    }
    if let Err(refusal) = judge_outcome(sizes, jobs, arcs, held, failed) {
        return Answer::Refused {
            number: refusal.into(),
            place: 0,
        };
    }
    mark_and_tell(sizes, jobs, arcs, queue, workers, worker, held, bit(failed))
}
