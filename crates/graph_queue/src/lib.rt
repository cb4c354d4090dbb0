// What is stored in the queue and in the index beside it: a job enters, or is taken. Follows docs/RULES.md, "Tables and
// their measures". Nothing is required of a table.
#![tactic(auto)]

ghost use Rattle.std.specs.Prelude.{◌≡◌, ◌<◌};
ghost use Rattle.def_heap.specs.Sift.{above};
ghost use Rattle.def_words.specs.Columns.{header};
ghost use Rattle.def_words.specs.Layout.{none, TAKEN};
ghost use Rattle.def_words.specs.Index.{levels, put_slot, shifted_down, shifted_up, put_seat, take_seat};

use def_words::Seat;
use graph_words::layout::*;
use graph_words::{header, put_header, put_queue, queue_word};
use graph_worker_words::sum;

// The slot above a slot; that of the first is itself.
fn above(slot: u32) -> u32
    ensures { result ≡ above slot }
{
    slot.saturating_sub(1) / 2
}

// A cell is put in a slot, which is its position.
fn put_slot(queue: &mut [u32], slot: u32, cell: u32)
    ensures { queue.new ≡ put_slot queue.old slot cell }
{
    put_queue(queue, slot, SLOT, cell);
    put_queue(queue, cell, POSITION, slot);
}

// A cell is put in the slot `to`, and those on the way from there down to the slot `from` move down a slot each.
fn shift_down(queue: &mut [u32], cell: u32, from: u32, to: u32)
    ensures { queue.new ≡ shifted_down levels queue.old cell from to }
{
    let mut at = from;
    for _ in 0..LEVELS {
        if at == to {
            break;
        }
        let up = above(at);
        let moved = queue_word(queue, up, SLOT);
        put_slot(queue, at, moved);
        at = up;
    }
    put_slot(queue, at, cell);
}

// A cell is put in a slot, and those on the way from there up move up a slot each: the first goes out.
fn shift_up(queue: &mut [u32], cell: u32, slot: u32)
    ensures { queue.new ≡ shifted_up levels queue.old cell slot }
{
    let mut moved = cell;
    let mut at = slot;
    for _ in 0..LEVELS {
        if at == 0 {
            break;
        }
        let next = queue_word(queue, at, SLOT);
        put_slot(queue, at, moved);
        moved = next;
        at = above(at);
    }
    put_slot(queue, at, moved);
}

// A job enters, in the seat that was found for it.
pub fn put_seat(queue: &mut [u32], seat: Seat, job: u32)
    ensures { seat.cell < none → queue.new ≡ put_seat queue.old seat job }
{
    put_queue(queue, seat.cell, QUEUED, job);
    shift_down(queue, seat.cell, seat.last, seat.slot);
    put_header(queue, PUT, sum(seat.cell, 1));
}

// The job of the index's first cell is taken.
pub fn take_seat(queue: &mut [u32], seat: Seat)
    ensures { header queue.old TAKEN < none
        → queue.new ≡ take_seat queue.old seat }
{
    let taken = header(queue, TAKEN);
    let moved = queue_word(queue, seat.last, SLOT);
    shift_up(queue, moved, seat.slot);
    put_queue(queue, seat.last, SLOT, NONE);
    put_queue(queue, seat.cell, QUEUED, NONE);
    put_queue(queue, seat.cell, POSITION, NONE);
    put_header(queue, TAKEN, sum(taken, 1));
}
