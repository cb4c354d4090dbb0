// The day list of two workers, in an output that suffices for every sheet: nothing is refused. Follows docs/RULES.md,
// "The board and the day list" (R 256, A 1,024, b 4, P 2).
#![tactic(auto)]

ghost use Rattle.std.specs.Prelude.{◌≡◌, List, ℕ, length};
ghost use Rattle.std.proofs.lemmas.List.Edits.{sets};
ghost use Rattle.def_day_lines.specs.Day.{day_text};

use day_list::day_list;
use def_day_lines::DayAnswer;

const WORKERS: u32 = 2;

// No list has more than 97,979 bytes.
pub const OUT_BYTES: usize = 98304;

// How many bytes were printed at the front of the output.
pub fn day_list_of_two(sheet: &[u8], out: &mut [u8; OUT_BYTES]) -> usize
    ensures value { result ≡ length (day_text 2 sheet.now) }
    ensures out_after { out.new ≡ sets out.old 0 (day_text 2 sheet.now) }
{
    match day_list(sheet, WORKERS, out) {
        DayAnswer::Printed { bytes } => bytes,
        DayAnswer::Refused { number: _ } => 0,
    }
}
