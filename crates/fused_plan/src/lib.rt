// What an add is to do, read from the tables before anything is stored: what its post is refused by, then its look-ups,
// its own name and the room. Follows docs/RULES.md, "Steps" and "Turned-away calls". Each definition holds of all
// tables and arguments.
#![tactic(auto)]

ghost use Rattle.std.specs.Prelude.{◌≡◌, List, ℕ, ◌≤◌, length};
ghost use Rattle.def_numbers.specs.Numbers.{most_names};
ghost use Rattle.def_basics.specs.Base.{prefix};
ghost use Rattle.def_words.specs.Layout.{tables, view};
ghost use Rattle.def_words.specs.Words.{find_of};
ghost use Rattle.def_fused.specs.FusedAdd.{jobs_found, plan_own, plan_add};
ghost use Rattle.def_fused.specs.declared.AddPlan.TheVariants.{EnterJob};
ghost use Rattle.def_sheet_rows.specs.Arguments.{arguments_of};

mod look_ups;

use def_fused::{AddPlan, LookUps};
use def_numbers::*;
use def_sheets::Entry;
use def_terms::Sizes;
use def_words::Found;
use graph_arguments::arguments_wrong;
use graph_find::find;
use graph_own::counters_ok;
use graph_words::layout::*;
use graph_words::{header, worker_word};
use look_ups::look_ups;

// After the look-ups: the add's own name is to be new, and the tables are to have room. The queue and the workers are
// not read: it holds with any.
fn plan_own(
    sizes: Sizes,
    jobs: &[u32],
    arcs: &[u32],
    buckets: &[u32],
    name: u32,
    count: u32,
) -> AddPlan
    ensures { (queue workers : List ℕ)
        → result ≡ plan_own sizes
        (view (tables jobs.now arcs.now buckets.now queue workers)) count
        (find_of sizes (view (tables jobs.now arcs.now buckets.now queue workers))
        name) }
{
    match find(sizes, jobs, buckets, name) {
        Found::At { .. } => AddPlan::TurnAway {
            number: NAME_PRESENT,
            place: 0,
        },
        Found::Damaged => AddPlan::Stop { place: count },
        Found::Missing => {
            let full = (sizes.jobs <= header(jobs, MADE))
                | ((sizes.arcs as u64) < (header(arcs, RESERVED) as u64) + (count as u64));
            if full {
                AddPlan::TurnAway {
                    number: TABLES_FULL,
                    place: 0,
                }
            } else {
                AddPlan::EnterJob
            }
        }
    }
}

// The plan of an add. Where its job is to enter, the jobs of its names are kept in `found`, for the links.
pub fn plan_add(
    sizes: Sizes,
    jobs: &[u32],
    arcs: &[u32],
    buckets: &[u32],
    workers: &[u32],
    worker: u32,
    entry: Entry,
    found: &mut [u32],
) -> AddPlan
    ensures { (queue : List ℕ)
        → (result ≡ plan_add sizes
        (view (tables jobs.now arcs.now buckets.now queue workers.now))
        worker (arguments_of entry))
        × (most_names ≤ length found.old → result ≡ EnterJob → prefix entry.count found.new
        ≡ jobs_found sizes
        (view (tables jobs.now arcs.now buckets.now queue workers.now))
        (prefix entry.count entry.names)) }
{
    if worker_word(workers, worker, PHASE) != IDLE {
        return AddPlan::Reject { number: HALF_DONE };
    }
    let wrong = arguments_wrong(
        entry.name,
        &entry.names,
        entry.count,
        entry.class,
        entry.grower,
    );
    if wrong {
        return AddPlan::Reject {
            number: WRONG_ARGUMENTS,
        };
    }
    if !counters_ok(sizes, jobs, arcs) {
        return AddPlan::Reject { number: DAMAGED };
    }
    match look_ups(sizes, jobs, buckets, &entry.names, entry.count, found) {
        LookUps::Unknown { place } => AddPlan::TurnAway {
            number: UNKNOWN_NAME,
            place,
        },
        LookUps::Broken { place } => AddPlan::Stop { place },
        LookUps::All => plan_own(sizes, jobs, arcs, buckets, entry.name, entry.count),
    }
}
