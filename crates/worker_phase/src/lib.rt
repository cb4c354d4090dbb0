// A worker's phase, and whether damage stopped a call run whole half done: by the number that the call answers, and the
// phase before and after it. Follows docs/RULES.md, "Whole calls".
#![tactic(auto)]

ghost use Rattle.std.specs.Prelude.{◌≡◌, ltb};
ghost use Rattle.def_basics.specs.Base.{pick};
ghost use Rattle.def_words.specs.Columns.{columns};
ghost use Rattle.def_words.specs.Layout.{worker_shape, PHASE};
ghost use Rattle.def_stops.specs.Stopped.{stopped_as};

use def_numbers::DAMAGED;
use graph_words::layout::{IDLE, PHASE};
use graph_words::worker_word;
use lent_graph::Graph;

// The phase of a worker below a number of workers; no word is read for any other.
pub fn phase_of(workers: &[u32], most: u32, worker: u32) -> u32
    ensures { result ≡ pick (ltb worker most) (columns worker_shape workers.now PHASE worker) 0 }
{
    let known = worker < most;
    if known {
        worker_word(workers, worker, PHASE)
    } else {
        0
    }
}

// The phase of a worker that the graph has; no word is read for any other.
pub fn phase_in(graph: &Graph, worker: u32) -> u32
    ensures { result ≡ pick (ltb worker graph.now.sizes.workers)
        (columns worker_shape graph.now.workers.now PHASE worker) 0 }
{
    phase_of(graph.workers, graph.sizes.workers, worker)
}

pub fn stopped_as(number: u32, before: u32, after: u32) -> bool
    ensures { result ≡ stopped_as number before after }
{
    (number == DAMAGED) & ((before == IDLE) & (after != IDLE))
}
