// The look-ups of an add in one go: each name's job is kept, so that no name is looked up twice. Follows docs/RULES.md,
// "Steps". Each definition holds of all tables.
ghost use Rattle.std.specs.Prelude.{◌≡◌, List, ℕ, ◌≤◌, length};
ghost use Rattle.def_basics.specs.Base.{prefix};
ghost use Rattle.def_words.specs.Layout.{tables, view};
ghost use Rattle.def_fused.specs.FusedAdd.{look_ups, jobs_found};
ghost use Rattle.def_fused.specs.declared.LookUps.TheVariants.{All};

use def_fused::LookUps;
use def_terms::Sizes;
use def_words::Found;
use graph_find::find;
use graph_words::{put_word, word};

// The jobs of the first `count` names, up to the first that has none, are kept in `found`, as far as it reaches. The
// arcs, the queue and the workers are not read: it holds with any.
pub fn look_ups(
    sizes: Sizes,
    jobs: &[u32],
    buckets: &[u32],
    names: &[u32],
    count: u32,
    found: &mut [u32],
) -> LookUps
    ensures { (arcs queue workers : List ℕ)
        → (result ≡ look_ups sizes (view (tables jobs.now arcs buckets.now queue workers))
        (prefix count names.now) 0)
        × (count ≤ length found.old → result ≡ All → prefix count found.new
        ≡ jobs_found sizes (view (tables jobs.now arcs buckets.now queue workers))
        (prefix count names.now)) }
{
    for i in 0..count {
        match find(sizes, jobs, buckets, word(names, i as usize)) {
            Found::At { job } => put_word(found, i as usize, job),
            Found::Missing => return LookUps::Unknown { place: i },
            Found::Damaged => return LookUps::Broken { place: i },
        }
    }
    LookUps::All
}
