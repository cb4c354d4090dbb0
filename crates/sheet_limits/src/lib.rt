// Entries and whole sheets of jobs, judged before a byte is written (docs/SHEETS.md, numbers 14 and 15): the first
// field off its limits, or the bytes that are needed, and whether there is room for them.
#![tactic(auto)]

ghost use Rattle.std.specs.Prelude.{◌≡◌, List, ℕ, ◌+◌, ◌*◌, ◌≤◌, length, leb};
ghost use Rattle.def_numbers.specs.Numbers.{most_names, name_bytes, count_bytes, entry_words};
ghost use Rattle.def_sheets.specs.Job.{bit_of, map_byte};
ghost use Rattle.def_sheets.specs.Write.{list_bytes, entry_at, entries_from, entries_of};
ghost use Rattle.sheet_limits.specs.Jobs.{entry_with, job_on};
ghost use Rattle.sheet_limits.specs.Judge.{judged, sheet_judged};

use def_numbers::{
    CLASS_BYTES, COUNT_BYTES, ENTRY_WORDS, GROWER_BYTES, MOST_CLASS, MOST_GROWER, MOST_NAMES,
    NAME_BYTES,
};

// The bytes of the map.
pub const MAP_BYTES: usize = 1;

// Where the list stands, from the entry's start.
pub const LIST_OFFSET: usize = MAP_BYTES + NAME_BYTES;

// A row of words holds an entry: its name, and from these words on its count, class, grower and names.
pub const COUNT_WORD: usize = 1;

pub const CLASS_WORD: usize = 2;

pub const GROWER_WORD: usize = 3;

pub const NAMES_WORD: usize = 4;

// An entry is off its limits: where its first wrong field stands, from the entry's start.
#[derive(Clone, Copy)]
pub struct WrongField {
    pub at: usize,
}

// A sheet is off its limits: its first entry with a wrong field, and where that field stands, from the entry's start.
#[derive(Clone, Copy)]
pub struct WrongEntry {
    pub entry: usize,
    pub at: usize,
}

// 1 for a field that is written, 0 for one that is left out.
pub fn bit(x: u32) -> usize
    ensures { (result ≡ bit_of x) × (result ≤ 1) }
{
    usize::from(x != 0)
}

// The map byte: bit 0 name, bit 1 prerequisites, bit 2 class, bit 3 grower.
pub fn map_byte(count: u32, class: u32, grower: u32) -> u8
    ensures { (name : ℕ) (list : List ℕ) → length list ≡ count → result ≡ map_byte (job_on name list class grower) }
{
    (1 + 2 * bit(count) + 4 * bit(class) + 8 * bit(grower)) as u8
}

// The bytes of a list of n names.
fn list_bytes(n: u32) -> usize
    ensures { (result ≡ list_bytes n) × (result ≤ count_bytes + name_bytes * n) }
{
    if n == 0 {
        0
    } else {
        COUNT_BYTES + NAME_BYTES * (n as usize)
    }
}

// Judges an entry by its count, class and grower, whatever its names are, and answers the bytes that it takes. The
// offset of its fields is counted on.
pub fn judge(count: u32, class: u32, grower: u32) -> Result<usize, WrongField>
    ensures { (name : ℕ) (names : List ℕ) → length names ≡ most_names
        → result ≡ judged (entry_with name count class grower names) }
{
    let mut offset = LIST_OFFSET;
    if MOST_NAMES < count {
        return Err(WrongField { at: offset });
    }
    offset += list_bytes(count);
    if MOST_CLASS < class {
        return Err(WrongField { at: offset });
    }
    offset += CLASS_BYTES * bit(class);
    if MOST_GROWER < grower {
        return Err(WrongField { at: offset });
    }
    offset += GROWER_BYTES * bit(grower);
    Ok(offset)
}

// Whether so many bytes from an offset on lie before the end. No sum is made, so none can wrap.
pub fn has_room(end: usize, at: usize, bytes: usize) -> bool
    ensures { result ≡ leb (at + bytes) end }
{
    if end < at {
        return false;
    }
    bytes <= end - at
}

// The entry in row i, judged.
fn judge_row(rows: &[u32], i: usize) -> Result<usize, WrongField>
    requires { entry_words * (i + 1) ≤ length rows.now }
    ensures { result ≡ judged (entry_at rows.now i) }
{
    let row = ENTRY_WORDS * i;
    judge(
        rows[row + COUNT_WORD],
        rows[row + CLASS_WORD],
        rows[row + GROWER_WORD],
    )
}

// The entries of the first n rows, judged: the bytes that they take.
fn judge_rows(rows: &[u32], n: usize) -> Result<usize, WrongEntry>
    requires { entry_words * n ≤ length rows.now }
    ensures { result ≡ sheet_judged (entries_from rows.now 0 n) }
{
    let mut sum: usize = 0;
    for entry in 0..n {
        match judge_row(rows, entry) {
            Ok(bytes) => sum += bytes,
            Err(WrongField { at }) => return Err(WrongEntry { entry, at }),
        }
    }
    Ok(sum)
}

// The entries of all rows, judged: the bytes that they take.
pub fn judge_sheet(rows: &[u32]) -> Result<usize, WrongEntry>
    ensures { result ≡ sheet_judged (entries_of rows.now) }
{
    judge_rows(rows, rows.len() / ENTRY_WORDS)
}
