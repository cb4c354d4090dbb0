// What the day list's adds and rounds do stands in specs/. Here is how code keeps a round's holders.
#![tactic(auto)]

ghost use Rattle.std.specs.Prelude.{◌≡◌, ◌-◌, ◌<◌, ◌≤◌, List, [], ◌∷◌, ◌++◌, length, take, drop};
ghost use Rattle.std.proofs.Common.{arith, length-take-le};
ghost use Rattle.def_numbers.specs.Numbers.{most_workers};
ghost use Rattle.def_day.specs.Places.{blanks, places, places_are};
ghost use Rattle.def_day.specs.declared.Holder.{Holder};

use def_numbers::MOST_WORKERS;
use std::marker::Model;

// As many holders as workers.
pub const MOST_HOLDERS: usize = MOST_WORKERS as usize;

// A worker, with the name of the job that it was handed.
#[derive(Clone, Copy)]
pub struct Holder {
    pub worker: u32,
    pub name: u32,
}

// The holders of a round, in the order of their gets.
#[derive(Clone, Copy)]
pub struct Holders {
    holders: [Holder; MOST_HOLDERS],
    count: usize,
}

// Clauses see the list of them. The places past the last are blank, so the list says what stands in every place.
impl Model for Holders {
    ghost Value = { List Holder };

    ghost view = { λ h. take h.count h.holders };

    ghost invariant = { λ h. (h.count ≤ most_workers) × (length h.holders ≡ most_workers)
        × (drop h.count h.holders ≡ blanks (most_workers - h.count)) };

    ghost inverse = { λ hs. record { holders = places hs; count = length hs } };

    ghost inverse_ok = { λ h k i. record {
      holders = places_are h.count h.holders k.0 k.1 k.2 i;
      count = length-take-le h.count h.holders (omega (arith, k.0, k.1)) i;
    } };
}

impl Holders {
    pub fn new() -> Self
        ensures { result ≡ [] }
    {
        Holders {
            holders: [Holder { worker: 0, name: 0 }; MOST_HOLDERS],
            count: 0,
        }
    }

    pub fn push(&mut self, holder: Holder)
        requires { length self.old < most_workers }
        ensures { self.new ≡ self.old ++ holder ∷ [] }
    {
        self.holders[self.count] = holder;
        self.count += 1;
    }

    pub fn as_slice(&self) -> &[Holder]
        ensures { (result.now ≡ self.now) × (length result.now ≤ most_workers) }
    {
        &self.holders[..self.count]
    }
}
