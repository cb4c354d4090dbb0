// An add of an idle worker in one go: all look-ups, the entering, all links by the jobs that were found, settling; the
// worker's words are stored once, at the end. Follows docs/RULES.md, "Steps" and "Turned-away calls". Nothing is
// required: the definition holds of all tables and arguments.
#![tactic(auto)]

ghost use Rattle.std.specs.Prelude.{◌≡◌};
ghost use Rattle.def_terms.specs.Runs.{result_of};
ghost use Rattle.def_words.specs.Layout.{as_lent, as_left};
ghost use Rattle.def_fused.specs.FusedAdd.{add_if_idle};
ghost use Rattle.def_sheet_rows.specs.Arguments.{arguments_of};

use def_fused::AddPlan;
use def_sheets::Entry;
use def_terms::{Answer, Sizes};
use fused_ends::settling::settle_add;
use fused_ends::stops::{stop_looking, turn_away};
use fused_job::entering::enter_job;
use fused_job::links::link_all;
use fused_plan::plan_add;
use graph_words::layout::*;
use graph_words::worker_word;

// Adds a job: planned, and then done. Of a worker that is half done it answers 3, and changes nothing.
pub fn add_if_idle(
    sizes: Sizes,
    jobs: &mut [u32],
    arcs: &mut [u32],
    buckets: &mut [u32],
    queue: &mut [u32],
    workers: &mut [u32],
    worker: u32,
    entry: Entry,
) -> Answer
    ensures { result_of result (as_left jobs arcs buckets queue workers)
        ≡ add_if_idle sizes (as_lent jobs arcs buckets queue workers) worker (arguments_of entry) }
{
    let held = worker_word(workers, worker, HELD);
    let mut found = [0u32; 32];
    let plan = plan_add(
        sizes, jobs, arcs, buckets, workers, worker, entry, &mut found,
    );
    match plan {
        AddPlan::Reject { number } => Answer::Refused { number, place: 0 },
        AddPlan::TurnAway { number, place } => turn_away(workers, worker, held, number, place),
        AddPlan::Stop { place } => stop_looking(workers, worker, held, entry, place),
        AddPlan::EnterJob => {
            let new = enter_job(sizes, jobs, arcs, buckets, entry);
            let links = link_all(sizes, jobs, arcs, new.job, new.arc, &found, entry.count);
            settle_add(sizes, jobs, queue, workers, worker, held, entry, new, links)
        }
    }
}
