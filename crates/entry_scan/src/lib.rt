// The entry at an offset of a job sheet, its fields read one after the other and judged (docs/SHEETS.md and numbers 12
// to 14): each answer is the one that the definitions of def_sheets give, for all bytes and every
// offset.
#![tactic(auto)]

ghost use Rattle.std.specs.Prelude.{◌≡◌, ◌&&◌, ◌||◌, ◌+◌, ◌≤◌, length, leb, eqb};
ghost use Rattle.def_numbers.specs.Numbers.{name_bytes};
ghost use Rattle.def_sheets.specs.Number.{number_at};
ghost use Rattle.def_sheets.specs.Decode.{name_at, limited_at, list_at, if_bit, decode, scan_of};

use def_numbers::{
    CLASS_BYTES, COUNT_BYTES, CUT, GROWER_BYTES, MOST_CLASS, MOST_GROWER, MOST_NAMES, NAME_BYTES,
    WRONG_MAP, WRONG_VALUE,
};
use def_sheets::{Numbers, Refusal, Scanned};

// where the list of an entry stands: past the map byte and the name; and where its names start: past the count byte too
pub const LIST_OFFSET: usize = 1 + NAME_BYTES;

pub const NAMES_FROM: usize = LIST_OFFSET + COUNT_BYTES;

// The number in so many bytes, least byte first.
pub fn number<const WIDTH: usize>(s: &[u8], at: usize) -> u32
    requires width { WIDTH ≤ 4 }
    requires inside { at + WIDTH ≤ length s.now }
    ensures { result ≡ number_at WIDTH s.now at }
{
    let mut bytes = [0; 4];
    bytes[..WIDTH].copy_from_slice(&s[at..at + WIDTH]);
    u32::from_le_bytes(bytes)
}

// A field of so many bytes that may be any number, with the offset past it.
fn whole<const WIDTH: usize>(s: &[u8], at: usize) -> Result<(u32, usize), Refusal>
    requires width { WIDTH ≤ 4 }
    requires inside { at ≤ length s.now }
    ensures { result ≡ name_at WIDTH s.now at }
{
    if s.len() < at + WIDTH {
        return Err(Refusal { number: CUT, at });
    }
    Ok((number::<WIDTH>(s, at), at + WIDTH))
}

// A field of so many bytes that is a number from 1 to its limit.
fn limited<const WIDTH: usize>(s: &[u8], at: usize, most: u32) -> Result<(u32, usize), Refusal>
    requires width { WIDTH ≤ 4 }
    requires inside { at ≤ length s.now }
    ensures { result ≡ limited_at WIDTH most s.now at }
{
    let (value, next) = whole::<WIDTH>(s, at)?;
    if value < 1 || most < value {
        return Err(Refusal {
            number: WRONG_VALUE,
            at,
        });
    }
    Ok((value, next))
}

// The same where its bit stands, and 0 where the field is left out.
fn limited_if<const WIDTH: usize>(
    s: &[u8],
    at: usize,
    bit: u32,
    most: u32,
) -> Result<(u32, usize), Refusal>
    requires width { WIDTH ≤ 4 }
    requires inside { at ≤ length s.now }
    ensures { result ≡ if_bit bit at (limited_at WIDTH most s.now at) }
{
    if bit == 0 {
        return Ok((0, at));
    }
    limited::<WIDTH>(s, at, most)
}

// A list, where its bit stands: its count, once as many names stand behind it.
fn list_if(s: &[u8], at: usize, bit: u32) -> Result<(u32, usize), Refusal>
    requires { at ≤ length s.now }
    ensures { result ≡ if_bit bit at (list_at name_bytes s.now at) }
{
    if bit == 0 {
        return Ok((0, at));
    }
    let (count, names) = limited::<COUNT_BYTES>(s, at, MOST_NAMES)?;
    let end = names + NAME_BYTES * count as usize;
    if s.len() < end {
        return Err(Refusal { number: CUT, at });
    }
    Ok((count, end))
}

// Whether a number is left out, or from 1 to its limit.
pub fn within_if(bit: u32, value: u32, most: u32) -> bool
    ensures { result ≡ (eqb bit 0 || (leb 1 value && leb value most)) }
{
    (bit == 0) | ((1 <= value) & (value <= most))
}

// The numbers of the entry at an offset, or none at the end of the sheet.
pub fn scan(s: &[u8], at: usize) -> Result<Option<Scanned>, Refusal>
    ensures { result ≡ scan_of (decode s.now at) }
{
    if s.len() <= at {
        return Ok(None);
    }
    let map = u32::from(s[at]);
    if 16 <= map || map % 2 == 0 {
        return Err(Refusal {
            number: WRONG_MAP,
            at,
        });
    }
    let (name, next) = whole::<NAME_BYTES>(s, at + 1)?;
    let (count, next) = list_if(s, next, map / 2 % 2)?;
    let (class, next) = limited_if::<CLASS_BYTES>(s, next, map / 4 % 2, MOST_CLASS)?;
    let (grower, next) = limited_if::<GROWER_BYTES>(s, next, map / 8 % 2, MOST_GROWER)?;
    let numbers = Numbers {
        name,
        count,
        class,
        grower,
    };
    Ok(Some(Scanned { numbers, next }))
}
