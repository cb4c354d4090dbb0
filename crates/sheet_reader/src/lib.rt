// The reader of job sheets: an entry with its names, and a whole sheet as rows of words (docs/SHEETS.md and numbers 12
// to 15). Each answer is the one that the definitions of def_sheets give, for all bytes and every offset.
#![tactic(auto)]

ghost use Rattle.std.specs.Prelude.{◌≡◌, ◌∷◌, ◌+◌, ◌*◌, ◌-◌, ◌≤◌, length, replicate};
ghost use Rattle.std.proofs.lemmas.List.Edits.{sets};
ghost use Rattle.def_numbers.specs.Numbers.{most_names, name_bytes, entry_words};
ghost use Rattle.def_sheets.specs.Decode.{names_at, padded, decode, blank, reading_of};
ghost use Rattle.def_sheets.specs.Decode.{decode_sheet, scan_sheet, sheet_rows, read_sheet};

use def_numbers::{ENTRY_WORDS, MOST_NAMES, NAME_BYTES, NO_ROOM};
use def_sheets::{Entry, Numbers, Read, Reading, Refusal, Scanned};
use entry_scan::{NAMES_FROM, number, scan};
use sheet_scan::{scan_again, scan_sheet};

// the places of an entry's names
const PLACES: usize = MOST_NAMES as usize;

// the words of an entry's numbers, which stand before its names
const NUMBERS: usize = 4;

// Stores the names that start at an offset, one in each place.
pub fn store_names(s: &[u8], at: usize, names: &mut [u32])
    requires { at + name_bytes * length names.old ≤ length s.now + (1 - length names.old) }
    ensures { names.new ≡ names_at name_bytes s.now at (length names.old) }
{
    for (i, name) in names.iter_mut().enumerate() {
        *name = number::<NAME_BYTES>(s, at + NAME_BYTES * i);
    }
}

// So many names from an offset on, and 0 in the places that are left.
fn names(s: &[u8], at: usize, count: usize) -> [u32; PLACES]
    requires { (count ≤ most_names) × (at + name_bytes * count ≤ length s.now + (1 - count)) }
    ensures { result ≡ padded (names_at name_bytes s.now at count) }
{
    let mut names = [0; PLACES];
    store_names(s, at, &mut names[..count]);
    names
}

// An answer that hands out no entry.
fn without_entry(answer: Read) -> Reading
    ensures { result ≡ record { answer = answer; entry = blank } }
{
    let names = [0u32; PLACES];
    let entry = Entry {
        name: 0,
        count: 0,
        class: 0,
        grower: 0,
        names,
    };
    Reading { answer, entry }
}

// The entry at an offset.
pub fn read(s: &[u8], at: usize) -> Reading
    ensures { result ≡ reading_of (decode s.now at) }
{
    match scan(s, at) {
        Ok(Some(Scanned { numbers, next })) => {
            let entry = Entry {
                name: numbers.name,
                count: numbers.count,
                class: numbers.class,
                grower: numbers.grower,
                names: names(s, at + NAMES_FROM, numbers.count as usize),
            };
            Reading {
                answer: Read::Job { next },
                entry,
            }
        }
        Ok(None) => without_entry(Read::End),
        Err(Refusal { number, at }) => without_entry(Read::Refused { number, at }),
    }
}

// Stores an entry's row: its numbers, then the names from an offset on, and 0 in the places that are left.
fn store_row(s: &[u8], at: usize, numbers: &Numbers, row: &mut [u32])
    requires names { (numbers.now.count ≤ most_names)
        × (at + name_bytes * numbers.now.count ≤ length s.now + (1 - numbers.now.count)) }
    requires words { length row.old ≡ entry_words }
    ensures { row.new ≡ numbers.now.name ∷ numbers.now.count ∷ numbers.now.class ∷ numbers.now.grower
        ∷ padded (names_at name_bytes s.now at numbers.now.count) }
{
    row.fill(0);
    row[0] = numbers.name;
    row[1] = numbers.count;
    row[2] = numbers.class;
    row[3] = numbers.grower;
    store_names(s, at, &mut row[NUMBERS..NUMBERS + numbers.count as usize]);
}

// Stores the rows of a sheet that was counted whole.
fn store_sheet(s: &[u8], entries: usize, rows: &mut [u32])
    requires { (scan_sheet (decode_sheet s.now) ≡ Ok entries)
        × (entry_words * entries ≤ length rows.old) }
    ensures { sheet_rows (Ok entries) rows.new ≡ read_sheet (decode_sheet s.now) rows.old }
{
    let mut at = 0;
    let mut from = 0;
    while let Some(scanned) = scan_again(s, at) {
        let row = &mut rows[from..from + ENTRY_WORDS];
        store_row(s, at + NAMES_FROM, &scanned.numbers, row);
        at = scanned.next;
        from += ENTRY_WORDS;
    }
}

// Reads a whole sheet into rows of words, an entry each.
pub fn read_sheet(s: &[u8], rows: &mut [u32]) -> Result<usize, Refusal>
    ensures { sheet_rows result rows.new ≡ read_sheet (decode_sheet s.now) rows.old }
{
    let entries = scan_sheet(s)?;
    if rows.len() / ENTRY_WORDS < entries {
        return Err(Refusal {
            number: NO_ROOM,
            at: 0,
        });
    }
    store_sheet(s, entries, rows);
    Ok(entries)
}
