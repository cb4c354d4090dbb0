// The scan of a whole job sheet, which counts its entries (docs/SHEETS.md and numbers 12 to 14). Where the longest
// entry would fit, the fields are read with no test of their ends.
#![tactic(auto)]

ghost use Rattle.std.specs.Prelude.{◌≡◌, ℕ, ◌+◌, ◌*◌, ◌/◌, ◌%◌, ◌≤◌, length, get_or};
ghost use Rattle.def_numbers.specs.Numbers.{most_names, most_entry_bytes};
ghost use Rattle.def_sheets.specs.Decode.{decode, refused, scan_of, decode_sheet, scan_sheet};
ghost use Rattle.sheet_scan.specs.Offsets.{fields_by_bits};

use def_numbers::{
    CLASS_BYTES, COUNT_BYTES, GROWER_BYTES, MOST_CLASS, MOST_ENTRY_BYTES, MOST_GROWER, MOST_NAMES,
    NAME_BYTES,
};
use def_sheets::{Numbers, Refusal, Scanned};
use entry_scan::{LIST_OFFSET, NAMES_FROM, number, scan, within_if};

// map bytes: of a name alone, and of a name with a list
const NAME_ALONE: u32 = 1;

const NAME_AND_LIST: u32 = 3;

// The numbers of the entry at an offset, each multiplied by its bit: in a sheet of many kinds of entry a jump on a bit
// is guessed wrong half the time.
fn by_bits(s: &[u8], at: usize, map: u32, count: u32) -> Scanned
    requires { (at + most_entry_bytes ≤ length s.now) × (count ≤ most_names) }
    ensures { result ≡ fields_by_bits s.now at map count }
{
    let list_bit = map / 2 % 2;
    let class_bit = map / 4 % 2;
    let grower_bit = map / 8 % 2;
    let class_at = at + LIST_OFFSET + list_bit as usize + NAME_BYTES * count as usize;
    let grower_at = class_at + class_bit as usize;
    let numbers = Numbers {
        name: number::<NAME_BYTES>(s, at + 1),
        count,
        class: class_bit * number::<CLASS_BYTES>(s, class_at),
        grower: grower_bit * number::<GROWER_BYTES>(s, grower_at),
    };
    Scanned {
        numbers,
        next: grower_at + GROWER_BYTES * grower_bit as usize,
    }
}

// The numbers of an entry, by its map byte, where the longest entry would fit: no field's end is tested.
fn scan_by_bits(s: &[u8], at: usize, map: u32) -> Result<Option<Scanned>, Refusal>
    requires { (at + most_entry_bytes ≤ length s.now) × (map ≡ get_or s.now at 0) }
    ensures { result ≡ scan_of (decode s.now at) }
{
    let list_bit = map / 2 % 2;
    let count = list_bit * number::<COUNT_BYTES>(s, at + LIST_OFFSET);
    let right = (map < 16) & (map % 2 == 1);
    if right & within_if(list_bit, count, MOST_NAMES) {
        let scanned = by_bits(s, at, map, count);
        if within_if(map / 4 % 2, scanned.numbers.class, MOST_CLASS)
            & within_if(map / 8 % 2, scanned.numbers.grower, MOST_GROWER)
        {
            return Ok(Some(scanned));
        }
    }
    scan(s, at)
}

// The numbers of the entry at an offset, as `scan` answers them. A name alone and a name with a list have jumps of
// their own: in a sheet of such entries these are guessed right, and the next entry need not wait for the map byte.
fn scan_next(s: &[u8], at: usize) -> Result<Option<Scanned>, Refusal>
    requires { at ≤ length s.now }
    ensures { result ≡ scan_of (decode s.now at) }
{
    if s.len() < at + MOST_ENTRY_BYTES {
        return scan(s, at);
    }
    let map = u32::from(s[at]);
    if map == NAME_ALONE {
        let numbers = Numbers {
            name: number::<NAME_BYTES>(s, at + 1),
            count: 0,
            class: 0,
            grower: 0,
        };
        return Ok(Some(Scanned {
            numbers,
            next: at + LIST_OFFSET,
        }));
    }
    let count = number::<COUNT_BYTES>(s, at + LIST_OFFSET);
    let listed = (1 <= count) & (count <= MOST_NAMES);
    if (map == NAME_AND_LIST) & listed {
        let numbers = Numbers {
            name: number::<NAME_BYTES>(s, at + 1),
            count,
            class: 0,
            grower: 0,
        };
        return Ok(Some(Scanned {
            numbers,
            next: at + NAMES_FROM + NAME_BYTES * count as usize,
        }));
    }
    scan_by_bits(s, at, map)
}

// The numbers of an entry that was read before and is no refusal: no value is judged. No sum is made before the longest
// entry is known to fit, so none can wrap.
pub fn scan_again(s: &[u8], at: usize) -> Option<Scanned>
    ensures { ((number offset : ℕ) → decode s.now at ≡ refused number offset → ⊥)
        → Ok result ≡ scan_of (decode s.now at) }
{
    if MOST_ENTRY_BYTES <= s.len() && at <= s.len() - MOST_ENTRY_BYTES {
        let map = u32::from(s[at]);
        let count = map / 2 % 2 * number::<COUNT_BYTES>(s, at + LIST_OFFSET);
        if count <= MOST_NAMES {
            return Some(by_bits(s, at, map, count));
        }
    }
    scan(s, at).unwrap_or(None)
}

// Counts the entries of a whole sheet.
pub fn scan_sheet(s: &[u8]) -> Result<usize, Refusal>
    ensures { result ≡ scan_sheet (decode_sheet s.now) }
{
    let mut at = 0;
    let mut entries: usize = 0;
    while let Some(scanned) = scan_next(s, at)? {
        entries += 1;
        at = scanned.next;
    }
    Ok(entries)
}
