// A graph as it is lent to a call: its sizes and its five tables; and the tests that come first in each call of a
// worker. Follows docs/RULES.md, "Tables and their measures" and "Turned-away calls". Nothing is required of a table.
#![tactic(auto)]

ghost use Rattle.std.specs.Prelude.{◌≡◌};
ghost use Rattle.def_numbers.specs.Numbers.{accepted};
ghost use Rattle.def_numbers.specs.Refusals.{number_told};
ghost use Rattle.def_words.specs.Columns.{columns, header};
ghost use Rattle.def_words.specs.Layout.{MADE, worker_shape, room_for};
ghost use Rattle.def_words.specs.Words.{admitted, refusal};
ghost use Rattle.lent_graph.specs.Lent.{words};

use def_numbers::Refusal;
use def_terms::Sizes;
use graph_own::own_ok;
use graph_sizes::{room_for, sizes_fit};
use graph_words::layout;

#[derive(Drop)]
pub struct Graph<'a> {
    pub sizes: Sizes,
    pub jobs: &'a mut [u32],
    pub arcs: &'a mut [u32],
    pub buckets: &'a mut [u32],
    pub queue: &'a mut [u32],
    pub workers: &'a mut [u32],
}

impl<'a> Graph<'a> {
    // The sizes are within their limits, and the tables are long enough for them.
    pub fn has_room(&self) -> bool
        ensures { result ≡ room_for self.now.sizes (words self.now) }
    {
        room_for(
            self.sizes,
            self.jobs,
            self.arcs,
            self.buckets,
            self.queue,
            self.workers,
        )
    }

    // The tests that come first, in their order: 1, 2, and 9 for the worker's own words.
    pub fn admit(&self, worker: u32) -> Result<(), Refusal>
        ensures { number_told result ≡ admitted self.now.sizes (words self.now) worker refusal accepted }
    {
        if !sizes_fit(
            self.sizes,
            self.jobs,
            self.arcs,
            self.buckets,
            self.queue,
            self.workers,
        ) {
            return Err(Refusal::WrongSize);
        }
        if worker >= self.sizes.workers {
            return Err(Refusal::NoSuchWorker);
        }
        if !own_ok(self.sizes, self.jobs, self.arcs, self.workers, worker) {
            return Err(Refusal::Damaged);
        }
        Ok(())
    }

    pub fn worker_word(&self, worker: u32, field: u32) -> u32
        ensures { result ≡ columns worker_shape self.now.workers.now field worker }
    {
        graph_words::worker_word(self.workers, worker, field)
    }

    // How many jobs were made.
    pub fn made(&self) -> u32
        ensures { result ≡ header self.now.jobs.now MADE }
    {
        graph_words::header(self.jobs, layout::MADE)
    }
}
