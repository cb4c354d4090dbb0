// The links of an add in one go, by the jobs that its look-ups found: a finished prerequisite is tallied, a failed one
// noted, and any other gets an arc. Follows docs/RULES.md, "Steps". Nothing is required of a table; tables that a
// function is not lent stay, whatever they are.
ghost use Rattle.std.specs.Prelude.{◌≡◌, List, ℕ};
ghost use Rattle.def_basics.specs.Base.{prefix};
ghost use Rattle.def_words.specs.Layout.{Tables, tables, view};
ghost use Rattle.def_words.specs.Words.{plan_link};
ghost use Rattle.def_words.specs.declared.Found.TheVariants.{At};
ghost use Rattle.def_fused.specs.FusedAdd.{Links, link_by, links};
ghost use Rattle.fused_job.specs.Linking.{linked_to, links_of};

use def_terms::Sizes;
use def_words::{Found, Plan};
use graph_link_steps::plan_link;
use graph_lists::{append_arc, new_arc, put_only_arc};
use graph_words::layout::*;
use graph_words::{put_job, word};
use graph_worker_words::note_of;

// A link met a damaged word, and stored nothing.
#[derive(Clone, Copy)]
pub struct Damaged;

// How far the links have come: the place reached, the finished prerequisites, and whether one of them failed.
#[derive(Clone, Copy)]
pub struct Linked {
    pub place: u32,
    pub tally: u32,
    pub note: u32,
}

// One link of the add's job to a prerequisite: planned, and stored. The outcome of the prerequisite, if it is finished.
fn link_one(
    sizes: Sizes,
    jobs: &mut [u32],
    arcs: &mut [u32],
    arc: u64,
    job: u32,
    prerequisite: u32,
) -> Result<Option<u32>, Damaged>
    ensures { (buckets queue workers : List ℕ) (i k n : ℕ) (next : Tables → ℕ → ℕ → Links)
        → linked_to result (tables jobs.new arcs.new buckets queue workers) i k n next
        ≡ link_by (plan_link sizes (view (tables jobs.old arcs.old buckets queue workers)) arc job
        (At prerequisite)) (tables jobs.old arcs.old buckets queue workers) i k n next }
{
    let found = Found::At { job: prerequisite };
    match plan_link(sizes, jobs, arcs, arc, job, found) {
        Plan::Tally { outcome } => Ok(Some(outcome)),
        Plan::LinkFirst {
            prerequisite: before,
            arc: only,
            job: after,
        } => {
            put_only_arc(jobs, before, only);
            new_arc(arcs, only, after);
            Ok(None)
        }
        Plan::LinkAfter {
            prerequisite: before,
            last,
            arc: next,
            job: after,
        } => {
            put_job(jobs, before, LAST, next);
            append_arc(arcs, last, next, after);
            Ok(None)
        }
        _ => Err(Damaged),
    }
}

// The links to the first `count` of the jobs found; the arc of place 0 is `first`. At a damaged word they stop.
pub fn link_all(
    sizes: Sizes,
    jobs: &mut [u32],
    arcs: &mut [u32],
    job: u32,
    first: u32,
    found: &[u32],
    count: u32,
) -> Result<Linked, Linked>
    ensures { (buckets queue workers : List ℕ)
        → links_of result (tables jobs.new arcs.new buckets queue workers)
        ≡ links sizes job first (prefix count found.now) 0
        (tables jobs.old arcs.old buckets queue workers) 0 0 }
{
    let mut tally: u32 = 0;
    let mut note: u32 = 0;
    for place in 0..count {
        let arc = (first as u64) + (place as u64);
        let prerequisite = word(found, place as usize);
        let Ok(finished) = link_one(sizes, jobs, arcs, arc, job, prerequisite) else {
            return Err(Linked { place, tally, note });
        };
        if let Some(outcome) = finished {
            tally += 1;
            note = note_of(outcome, note);
        }
    }
    Ok(Linked {
        place: count,
        tally,
        note,
    })
}
