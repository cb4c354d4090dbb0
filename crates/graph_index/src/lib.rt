// The index beside the queue, read: where the cell of a job that enters comes to rest in it. Follows docs/RULES.md,
// "Tables and their measures". Each definition holds of all tables, and where a table is not read the contract holds
// with any.
#![tactic(auto)]

ghost use Rattle.std.specs.Prelude.{◌≡◌, List, ℕ};
ghost use Rattle.def_heap.specs.Sift.{sift_up};
ghost use Rattle.def_words.specs.Layout.{tables, view};
ghost use Rattle.def_words.specs.Index.{rank, rank_of, waits, cell_in, seated, seat_for, levels};
ghost use Rattle.graph_index.specs.Looked.{looked};

use def_heap::Sifted;
use def_numbers::*;
use def_terms::Sizes;
use def_words::{Seat, Seating};
use graph_words::layout::*;
use graph_words::{header, job_word, less, queue_word};

// The slot of a waiting job's cell, and the rank of that cell.
#[derive(Clone, Copy)]
pub struct Ranked {
    pub slot: u32,
    pub rank: u64,
}

// The order of hand-outs, as one number of a class and a cell: the lower first.
fn rank(class: u32, cell: u32) -> u64
    ensures { result ≡ rank class cell }
{
    (less(MOST_CLASS, class) as u64) * (MOST_JOBS as u64) + (cell as u64)
}

// A slot that is looked at, or none where it holds no waiting job's cell. The position and the job are read only of a
// cell that was put, and the class only of a job: other reads could lie past the tables.
pub fn look(jobs: &[u32], queue: &[u32], slot: u32) -> Option<Ranked>
    ensures { (arcs buckets workers : List ℕ)
        → let v = view (tables jobs.now arcs buckets queue.now workers) in
        result ≡ looked (rank_of v) (waits v) (cell_in v) slot }
{
    let cell = queue_word(queue, slot, SLOT);
    if cell >= header(queue, PUT) {
        return None;
    }
    let position = queue_word(queue, cell, POSITION);
    if position != slot {
        return None;
    }
    let job = queue_word(queue, cell, QUEUED);
    if job >= header(jobs, MADE) {
        return None;
    }
    let class = job_word(jobs, job, CLASS);
    if class > MOST_CLASS {
        return None;
    }
    Some(Ranked {
        slot,
        rank: rank(class, cell),
    })
}

// Up from the slot, past each cell of a higher rank.
fn sift_up(jobs: &[u32], queue: &[u32], rank: u64, slot: u32) -> Sifted
    ensures { (arcs buckets workers : List ℕ)
        → let v = view (tables jobs.now arcs buckets queue.now workers) in
        result ≡ sift_up (rank_of v) (waits v) (cell_in v) levels rank slot }
{
    let mut at = slot;
    for _ in 0..LEVELS {
        if at == 0 {
            break;
        }
        let Some(above) = look(jobs, queue, (at - 1) / 2) else {
            return Sifted::Astray;
        };
        if above.rank <= rank {
            break;
        }
        at = above.slot;
    }
    Sifted::Rests { slot: at }
}

pub fn seated(sifted: Sifted, cell: u32, last: u32) -> Seating
    ensures { result ≡ seated sifted cell last }
{
    match sifted {
        Sifted::Rests { slot } => Seating::Seated {
            seat: Seat { cell, last, slot },
        },
        Sifted::Astray => Seating::Unseated,
    }
}

// The seat of a job that enters the queue.
pub fn seat_for(sizes: Sizes, jobs: &[u32], queue: &[u32], job: u32) -> Seating
    ensures { (arcs buckets workers : List ℕ)
        → result ≡ seat_for sizes (view (tables jobs.now arcs buckets queue.now workers)) job }
{
    let taken = header(queue, TAKEN);
    let put = header(queue, PUT);
    let class = job_word(jobs, job, CLASS);
    if taken > put || put >= sizes.jobs || class > MOST_CLASS {
        return Seating::Unseated;
    }
    let filled = less(put, taken);
    seated(sift_up(jobs, queue, rank(class, put), filled), put, filled)
}
