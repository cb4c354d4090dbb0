// The day list of two workers, of an input that was read into a buffer. Follows docs/RULES.md, "The board and the day
// list".
#![tactic(auto)]

ghost use Rattle.std.specs.Prelude.{◌≡◌, List, ℕ, length, take};
ghost use Rattle.std.proofs.lemmas.List.Edits.{sets};
ghost use Rattle.def_day_lines.specs.Day.{day_text};

use day_of_two::{OUT_BYTES, day_list_of_two};

// One byte more than the longest sheet, so that a longer one is seen.
pub const SHEET_BYTES: usize = 32769;

// The list of a part of a buffer, or of all of it: how many bytes were printed at the front of the output.
fn day_list_of_part(buffer: &[u8], bytes: usize, out: &mut [u8; OUT_BYTES]) -> usize
    ensures value { result ≡ length (day_text 2 (take bytes buffer.now)) }
    ensures out_after { out.new ≡ sets out.old 0 (day_text 2 (take bytes buffer.now)) }
{
    if bytes <= buffer.len() {
        day_list_of_two(&buffer[..bytes], out)
    } else {
        day_list_of_two(buffer, out)
    }
}

// The list of the first bytes of a buffer: that of any sheet of which they are all, or the first 32,769.
pub fn day_list_of_input(
    buffer: &[u8; SHEET_BYTES],
    bytes: usize,
    out: &mut [u8; OUT_BYTES],
) -> usize
    ensures value { result ≡ length (day_text 2 (take bytes buffer.now)) }
    ensures out_after { out.new ≡ sets out.old 0 (day_text 2 (take bytes buffer.now)) }
    ensures by_index { (sheet : List ℕ) → take bytes buffer.now ≡ take (length buffer.now) sheet
        → day_text 2 (take bytes buffer.now) ≡ day_text 2 sheet }
{
    day_list_of_part(buffer, bytes, out)
}
