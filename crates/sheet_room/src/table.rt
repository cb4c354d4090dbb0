// The names that have entered, with a table of buckets by which one is found.

ghost use Rattle.std.specs.Prelude.{◌≡◌, ◌≤◌, ◌<◌, [], ◌∷◌, ◌++◌, length, leb};
ghost use Rattle.def_numbers.specs.Numbers.{most_jobs};
ghost use Rattle.def_basics.specs.Base.{contains};

use def_bucket::bucket;
use def_numbers::MOST_JOBS;
use std::marker::Model;

// Places for the names, and as many buckets.
const PLACES: usize = MOST_JOBS as usize;

const TABLE_BITS: u32 = 12;

// `heads` has one more than the place of the newest name of each bucket, `links` one more than the place of the next
// older name of each name's bucket, and 0 where there is none.
#[derive(Drop)]
pub struct Names {
    names: [u32; PLACES],
    heads: [u16; PLACES],
    links: [u16; PLACES],
    made: usize,
}

// Clauses see the names in the order in which they entered.
impl Model for Names {
    ghost use Rattle.std.specs.Prelude.{List, ℕ, take};
    ghost use Rattle.sheet_room.specs.Buckets.{Indexed};

    ghost Value = { List ℕ };

    ghost view = { λ t. take t.made t.names };

    ghost invariant = { λ t. Indexed t.names t.heads t.links t.made };
}

impl Names {
    pub fn new() -> Names
        ensures { result ≡ [] }
    {
        Names {
            names: [0; PLACES],
            heads: [0; PLACES],
            links: [0; PLACES],
            made: 0,
        }
    }

    pub fn len(&self) -> usize
        ensures count { result ≡ length self.now }
        ensures within { length self.now ≤ most_jobs }
    {
        self.made
    }

    pub fn is_full(&self) -> bool
        ensures { result ≡ leb most_jobs (length self.now) }
    {
        PLACES <= self.made
    }

    // Whether a name is there: its bucket is walked from the newest name on.
    pub fn known(&self, name: u32) -> bool
        ensures { result ≡ contains name self.now }
    {
        let mut h = self.heads[bucket(name, TABLE_BITS) as usize] as usize;
        while 0 < h {
            if self.names[h - 1] == name {
                return true;
            }
            h = self.links[h - 1] as usize;
        }
        false
    }

    // Enters a name as the newest of its bucket.
    pub fn enter(&mut self, name: u32)
        requires { length self.old < most_jobs }
        ensures { self.new ≡ self.old ++ name ∷ [] }
    {
        let newest = bucket(name, TABLE_BITS) as usize;
        self.names[self.made] = name;
        self.links[self.made] = self.heads[newest];
        self.made += 1;
        self.heads[newest] = self.made as u16;
    }
}
