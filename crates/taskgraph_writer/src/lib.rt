// Writing job sheets as C has it. A slice is a pointer and a count of elements in C; answers are structs by value.
// Numbers are those of docs/RULES.md, "Turned-away calls", and 0 where nothing was refused. include/taskgraph.h
// declares all of this. Assumes that a pointer with a count points to that many elements.
#![tactic(auto)]

ghost use Rattle.std.specs.Prelude.{◌≡◌};
ghost use Rattle.def_sheets.specs.Write.{write_entry, write_sheet};
ghost use Rattle.def_told.specs.Writer.{entry_written, sheet_written};

use def_numbers::ACCEPTED;
use def_sheets::{Entry, SheetWrote, Wrote};
use def_told::{EntryWritten, SheetWritten};

// Stores an entry at an offset of the output. A refusal leaves the output as it was.
#[unsafe(no_mangle)]
pub extern "C" fn tg_write_entry(out: &mut [u8], at: usize, entry: Entry) -> EntryWritten
    ensures { result ≡ entry_written (write_entry entry out.old at).answer
        × out.new ≡ (write_entry entry out.old at).out }
{
    match sheet_writer::write(out, at, entry) {
        Wrote::Done { next } => EntryWritten {
            number: ACCEPTED,
            at: next,
        },
        Wrote::Refused { number, at: field } => EntryWritten { number, at: field },
    }
}

// Stores the entries of all rows in the front of the output. A refusal leaves the output as it was.
#[unsafe(no_mangle)]
pub extern "C" fn tg_write_sheet(rows: &[u32], out: &mut [u8]) -> SheetWritten
    ensures { result ≡ sheet_written (write_sheet rows.now out.old).answer
        × out.new ≡ (write_sheet rows.now out.old).out }
{
    match sheet_writer::write_sheet(rows, out) {
        SheetWrote::Done { entries, bytes } => SheetWritten {
            number: ACCEPTED,
            entry: entries,
            at: bytes,
        },
        SheetWrote::Refused { number, entry, at } => SheetWritten { number, entry, at },
    }
}
