// Reading job sheets as C has it. A slice is a pointer and a count of elements in C; answers are structs by value.
// Numbers are those of docs/RULES.md, "Turned-away calls", and 0 where nothing was refused. include/taskgraph.h
// declares all of this. Assumes that a pointer with a count points to that many elements.
#![tactic(auto)]

ghost use Rattle.std.specs.Prelude.{◌≡◌};
ghost use Rattle.def_sheets.specs.Decode.{decode, decode_sheet, scan_sheet, read_sheet};
ghost use Rattle.def_told.specs.Reader.{entry_read, sheet_read};

use def_numbers::ACCEPTED;
use def_sheets::{Read, Refusal};
use def_told::{EntryRead, SheetScanned};

// The entry at an offset of a sheet.
#[unsafe(no_mangle)]
pub extern "C" fn tg_read_entry(sheet: &[u8], at: usize) -> EntryRead
    ensures { result ≡ entry_read at (decode sheet.now at) }
{
    let reading = sheet_reader::read(sheet, at);
    let answer = reading.answer;
    let entry = reading.entry;
    match answer {
        Read::Job { next } => EntryRead {
            number: ACCEPTED,
            found: 1,
            at: next,
            entry,
        },
        Read::End => EntryRead {
            number: ACCEPTED,
            found: 0,
            at,
            entry,
        },
        Read::Refused { number, at: field } => EntryRead {
            number,
            found: 0,
            at: field,
            entry,
        },
    }
}

// How reading a whole sheet ended, as C has it.
fn scanned(answer: Result<usize, Refusal>) -> SheetScanned
    ensures { result ≡ sheet_read answer }
{
    match answer {
        Ok(entries) => SheetScanned {
            number: ACCEPTED,
            entries,
            at: 0,
        },
        Err(Refusal { number, at }) => SheetScanned {
            number,
            entries: 0,
            at,
        },
    }
}

// Judges a whole sheet and counts its entries.
#[unsafe(no_mangle)]
pub extern "C" fn tg_scan_sheet(sheet: &[u8]) -> SheetScanned
    ensures { result ≡ sheet_read (scan_sheet (decode_sheet sheet.now)) }
{
    scanned(sheet_scan::scan_sheet(sheet))
}

// Reads a whole sheet into rows of words, one for each entry. A refusal leaves the rows as they were.
#[unsafe(no_mangle)]
pub extern "C" fn tg_read_sheet(sheet: &[u8], rows: &mut [u32]) -> SheetScanned
    ensures { result ≡ sheet_read (read_sheet (decode_sheet sheet.now) rows.old).answer
        × rows.new ≡ (read_sheet (decode_sheet sheet.now) rows.old).rows }
{
    scanned(sheet_reader::read_sheet(sheet, rows))
}
