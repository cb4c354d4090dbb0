// Writes entries and whole sheets of jobs (docs/SHEETS.md, numbers 14 and 15): judged first, then stored field after
// field at a running offset. A refusal leaves the output as it was.
#![tactic(auto)]

ghost use Rattle.std.specs.Prelude.{◌≡◌, ◌+◌, ◌*◌, ◌≤◌, length, take, drop};
ghost use Rattle.def_numbers.specs.Numbers.{name_bytes, entry_words};
ghost use Rattle.def_sheets.specs.Number.{spelt};
ghost use Rattle.def_sheets.specs.Job.{spelt_names, encode};
ghost use Rattle.def_sheets.specs.Write.{Fault, fault_of, job_of, entry_at, entries_from};
ghost use Rattle.def_sheets.specs.Write.{SheetFault, sheet_fault, written, write_entry, sheet_written, write_sheet};
ghost use Rattle.def_sheets.specs.Offset.{Part, running, put, up_to};
ghost use Rattle.thm_sheets.specs.SheetOffset.{sheet_so_far};
ghost use Rattle.sheet_writer.specs.Put.{Put, job_in, Fits, Due};

use def_numbers::{
    CLASS_BYTES, COUNT_BYTES, ENTRY_WORDS, GROWER_BYTES, NAME_BYTES, NO_ROOM, WRONG_SIZE,
    WRONG_VALUE,
};
use def_sheets::{Entry, SheetWrote, Wrote};
use sheet_limits::{
    CLASS_WORD, COUNT_WORD, GROWER_WORD, MAP_BYTES, NAMES_WORD, WrongEntry, WrongField, has_room,
    judge, judge_sheet, map_byte,
};

// The low N bytes of a number, least byte first.
fn put_number<const N: usize>(out: &mut [u8], offset: usize, number: u32) -> usize
    requires { (N ≤ 4) × (offset + N ≤ length out.old) }
    ensures { Put (spelt N number) out.old offset out.new result }
{
    let next = offset + N;
    out[offset..next].copy_from_slice(&number.to_le_bytes()[..N]);
    next
}

fn put_names(out: &mut [u8], offset: usize, names: &[u32]) -> usize
    requires { offset + name_bytes * length names.now ≤ length out.old }
    ensures { Put (spelt_names name_bytes names.now) out.old offset out.new result }
{
    let mut next = offset;
    for name in names {
        next = put_number::<NAME_BYTES>(out, next, *name);
    }
    next
}

// An entry to be written: where it starts, its numbers, and where its names begin among the words.
#[derive(Clone, Copy)]
struct Fields {
    start: usize,
    name: u32,
    count: u32,
    class: u32,
    grower: u32,
    first: usize,
}

// The parts of an entry, in their order. Each is due at the running offset, which is past the bytes of the entry so
// far; it is stored there, or left out, and the offset past it is handed on.

fn put_map(out: &mut [u8], offset: usize, words: &[u32], fields: Fields) -> usize
    requires { Due Part.map words.now fields offset out.old }
    ensures { running out.new result
        ≡ put Part.map (job_in words.now fields) (running out.old offset) }
{
    out[offset] = map_byte(fields.count, fields.class, fields.grower);
    offset + MAP_BYTES
}

fn put_own_name(out: &mut [u8], offset: usize, words: &[u32], fields: Fields) -> usize
    requires { Due Part.name words.now fields offset out.old }
    ensures { running out.new result
        ≡ put Part.name (job_in words.now fields) (running out.old offset) }
{
    put_number::<NAME_BYTES>(out, offset, fields.name)
}

// The count and the names.
fn put_list(out: &mut [u8], offset: usize, words: &[u32], fields: Fields) -> usize
    requires { Due Part.list words.now fields offset out.old }
    ensures { running out.new result
        ≡ put Part.list (job_in words.now fields) (running out.old offset) }
{
    if fields.count == 0 {
        return offset;
    }
    let count = fields.count as usize;
    let names = &words[fields.first..fields.first + count];
    let offset = put_number::<COUNT_BYTES>(out, offset, fields.count);
    put_names(out, offset, names)
}

fn put_class(out: &mut [u8], offset: usize, words: &[u32], fields: Fields) -> usize
    requires { Due Part.class words.now fields offset out.old }
    ensures { running out.new result
        ≡ put Part.class (job_in words.now fields) (running out.old offset) }
{
    if fields.class == 0 {
        return offset;
    }
    put_number::<CLASS_BYTES>(out, offset, fields.class)
}

fn put_grower(out: &mut [u8], offset: usize, words: &[u32], fields: Fields) -> usize
    requires { Due Part.grower words.now fields offset out.old }
    ensures { running out.new result
        ≡ put Part.grower (job_in words.now fields) (running out.old offset) }
{
    if fields.grower == 0 {
        return offset;
    }
    put_number::<GROWER_BYTES>(out, offset, fields.grower)
}

// An entry for which there is room. One offset runs through it, and comes to each part, those left out too.
fn put_entry(out: &mut [u8], words: &[u32], fields: Fields) -> usize
    requires { Fits words.now fields out.old }
    ensures { running out.new result
        ≡ up_to put Part.end (job_in words.now fields) (running out.old fields.start) }
{
    let mut offset = fields.start;
    offset = put_map(out, offset, words, fields);
    offset = put_own_name(out, offset, words, fields);
    offset = put_list(out, offset, words, fields);
    offset = put_class(out, offset, words, fields);
    put_grower(out, offset, words, fields)
}

// An entry that is within its limits and for which there is room.
fn put_whole(out: &mut [u8], start: usize, entry: Entry) -> usize
    requires { (fault_of entry ≡ Fault.none) × (start + length (encode (job_of entry)) ≤ length out.old) }
    ensures { Put (encode (job_of entry)) out.old start out.new result }
{
    let names = entry.names;
    let fields = Fields {
        start,
        name: entry.name,
        count: entry.count,
        class: entry.class,
        grower: entry.grower,
        first: 0,
    };
    put_entry(out, &names, fields)
}

// Writes an entry at an offset of the output, or leaves the output as it was.
pub fn write(out: &mut [u8], at: usize, entry: Entry) -> Wrote
    ensures { written result out.new ≡ write_entry entry out.old at }
{
    let bytes = match judge(entry.count, entry.class, entry.grower) {
        Ok(bytes) => bytes,
        Err(WrongField { at }) => {
            return Wrote::Refused {
                number: WRONG_VALUE,
                at,
            };
        }
    };
    if !has_room(out.len(), at, bytes) {
        return Wrote::Refused {
            number: NO_ROOM,
            at: 0,
        };
    }
    let next = put_whole(out, at, entry);
    Wrote::Done { next }
}

// The entry in row i, which is within its limits and for which there is room, behind the entries before it. Its names
// are read where they stand.
fn put_row(out: &mut [u8], start: usize, rows: &[u32], i: usize) -> usize
    requires { (entry_words * (i + 1) ≤ length rows.now) × (fault_of (entry_at rows.now i) ≡ Fault.none)
        × (start ≡ length (sheet_so_far rows.now i))
        × (start + length (encode (job_of (entry_at rows.now i))) ≤ length out.old) }
    ensures { Put (encode (job_of (entry_at rows.now i))) out.old start
        out.new result }
{
    let row = ENTRY_WORDS * i;
    let fields = Fields {
        start,
        name: rows[row],
        count: rows[row + COUNT_WORD],
        class: rows[row + CLASS_WORD],
        grower: rows[row + GROWER_WORD],
        first: row + NAMES_WORD,
    };
    put_entry(out, rows, fields)
}

// The entries of the first n rows, which are within their limits and for which there is room.
fn put_rows(out: &mut [u8], rows: &[u32], n: usize) -> usize
    requires { (entry_words * n ≤ length rows.now) × (sheet_fault 0 (entries_from rows.now 0 n) ≡ SheetFault.none)
        × (length (sheet_so_far rows.now n) ≤ length out.old) }
    ensures { Put (sheet_so_far rows.now n) out.old 0 out.new result }
{
    let mut next: usize = 0;
    for i in 0..n {
        next = put_row(out, next, rows, i);
    }
    next
}

// Writes the sheet of the rows' entries from the output's start on, or leaves the output as it was.
pub fn write_sheet(rows: &[u32], out: &mut [u8]) -> SheetWrote
    ensures { sheet_written result out.new ≡ write_sheet rows.now out.old }
{
    let n = rows.len() / ENTRY_WORDS;
    if rows.len() % ENTRY_WORDS != 0 {
        return SheetWrote::Refused {
            number: WRONG_SIZE,
            entry: 0,
            at: 0,
        };
    }
    let bytes = match judge_sheet(rows) {
        Ok(bytes) => bytes,
        Err(WrongEntry { entry, at }) => {
            return SheetWrote::Refused {
                number: WRONG_VALUE,
                entry,
                at,
            };
        }
    };
    if out.len() < bytes {
        return SheetWrote::Refused {
            number: NO_ROOM,
            entry: 0,
            at: 0,
        };
    }
    let bytes = put_rows(out, rows, n);
    SheetWrote::Done { entries: n, bytes }
}
