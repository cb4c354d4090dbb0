// The index beside the queue, read by a get: where the last cell comes to rest once the first is taken, and how many
// pairs of ranks are compared for that. Follows docs/RULES.md, "Tables and their measures". Each definition holds of
// all tables, and where a table is not read the contract holds with any.
#![tactic(auto)]

ghost use Rattle.std.specs.Prelude.{◌≡◌, List, ℕ, ◌≤◌, ◌<◌, length};
ghost use Rattle.def_heap.specs.Compared.{pairs_down};
ghost use Rattle.def_heap.specs.Sift.{left, sift_down};
ghost use Rattle.def_words.specs.Layout.{tables, view};
ghost use Rattle.def_words.specs.Index.{rank_of, waits, cell_in, first_seat, compared_cells, levels};
ghost use Rattle.graph_first.specs.Met.{earlier, met};

use def_heap::Sifted;
use def_numbers::*;
use def_words::Seating;
use graph_index::{Ranked, look, seated};
use graph_words::layout::*;
use graph_words::{header, less, queue_word};

// What is met in the slots below a slot, and how many pairs of ranks were compared there: one, or none.
#[derive(Clone, Copy)]
struct Met {
    looked: Option<Ranked>,
    compared: u32,
}

// How a way down ended, and how many pairs of ranks were compared on it.
#[derive(Clone, Copy)]
struct Moved {
    sifted: Sifted,
    compared: u32,
}

// The seat of the job that is handed out next, and how many pairs of ranks were compared to find it.
#[derive(Clone, Copy)]
pub struct FirstSeat {
    pub seating: Seating,
    pub compared: u32,
}

// Of two slots the one whose cell is handed out earlier.
fn earlier(left: Option<Ranked>, right: Option<Ranked>) -> Met
    ensures { (result ≡ earlier left right) × (result.compared ≤ 1) }
{
    match (left, right) {
        (Some(left), Some(right)) => Met {
            looked: Some(if right.rank < left.rank { right } else { left }),
            compared: 1,
        },
        _ => Met {
            looked: None,
            compared: 0,
        },
    }
}

// Of the slots below slot `at`, of which the left one is filled.
fn lesser(jobs: &[u32], queue: &[u32], filled: u32, at: u32) -> Met
    requires { left at < filled }
    ensures { ((arcs buckets workers : List ℕ)
        → let v = view (tables jobs.now arcs buckets queue.now workers) in
        result ≡ met (rank_of v) (waits v) (cell_in v) filled at)
        × (result.compared ≤ 1) }
{
    let left = look(jobs, queue, 2 * at + 1);
    if filled <= 2 * at + 2 {
        return Met {
            looked: left,
            compared: 0,
        };
    }
    earlier(left, look(jobs, queue, 2 * at + 2))
}

// Down from the first slot, past each cell of a lower rank. The pairs compared are those of any cell that has the
// rank.
fn sift_down(jobs: &[u32], queue: &[u32], filled: u32, rank: u64) -> Moved
    ensures { (arcs buckets workers : List ℕ)
        → let v = view (tables jobs.now arcs buckets queue.now workers) in
        (result.sifted ≡ sift_down (rank_of v) (waits v) (cell_in v) levels filled rank 0)
        × ((moved : ℕ) → rank_of v moved ≡ rank
        → result.compared ≡ length (pairs_down (rank_of v) (waits v) (cell_in v) levels filled moved 0)) }
{
    let mut at = 0;
    let mut compared = 0;
    for _ in 0..LEVELS {
        if 2 * (at as u64) + 1 >= (filled as u64) {
            break;
        }
        let met = lesser(jobs, queue, filled, at);
        compared += met.compared;
        let Some(below) = met.looked else {
            return Moved {
                sifted: Sifted::Astray,
                compared,
            };
        };
        compared += 1;
        if below.rank >= rank {
            break;
        }
        at = below.slot;
    }
    Moved {
        sifted: Sifted::Rests { slot: at },
        compared,
    }
}

const NO_SEAT: FirstSeat = FirstSeat {
    seating: Seating::Unseated,
    compared: 0,
};

// The seat of the job that is handed out next. Each comparison of two ranks is counted: "a get compares at most 64
// pairs of jobs".
pub fn first_seat_counted(jobs: &[u32], queue: &[u32]) -> FirstSeat
    ensures { (arcs buckets workers : List ℕ)
        → let v = view (tables jobs.now arcs buckets queue.now workers) in
        (result.seating ≡ first_seat v) × (result.compared ≡ length (compared_cells v)) }
{
    let put = header(queue, PUT);
    let taken = header(queue, TAKEN);
    let slot = less(less(put, taken), 1);
    if look(jobs, queue, 0).is_none() {
        return NO_SEAT;
    }
    let Some(last) = look(jobs, queue, slot) else {
        return NO_SEAT;
    };
    let moved = sift_down(jobs, queue, slot, last.rank);
    FirstSeat {
        seating: seated(moved.sifted, queue_word(queue, 0, SLOT), slot),
        compared: moved.compared,
    }
}

// The same without the count, which the compiler then leaves out of a get.
pub fn first_seat(jobs: &[u32], queue: &[u32]) -> Seating
    ensures { (arcs buckets workers : List ℕ)
        → result ≡ first_seat (view (tables jobs.now arcs buckets queue.now workers)) }
{
    first_seat_counted(jobs, queue).seating
}
