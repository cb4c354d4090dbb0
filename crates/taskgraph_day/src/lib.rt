// The day list as a function of the C interface; include/taskgraph.h declares it beside the others. It is a crate of
// its own, and so compiled by itself: in one module with the calls of the graph it would be a second caller of a step,
// and the compiler then keeps the step out of line in both. Assumes that a pointer with a count points to that many
// elements.
#![tactic(auto)]

ghost use Rattle.std.specs.Prelude.{◌≡◌};
ghost use Rattle.def_day_lines.specs.Day.{day_list};
ghost use Rattle.def_told.specs.Day.{day_printed};

use def_day_lines::DayAnswer;
use def_numbers::ACCEPTED;
use def_told::DayPrinted;

// Prints the day list of a sheet in the front of the output. A refusal leaves the output as it was.
#[unsafe(no_mangle)]
pub extern "C" fn tg_day_list(sheet: &[u8], workers: u32, out: &mut [u8]) -> DayPrinted
    ensures { result ≡ day_printed (day_list workers sheet.now out.old).answer
        × out.new ≡ (day_list workers sheet.now out.old).out }
{
    match day_list::day_list(sheet, workers, out) {
        DayAnswer::Printed { bytes } => DayPrinted {
            number: ACCEPTED,
            bytes,
        },
        DayAnswer::Refused { number } => DayPrinted { number, bytes: 0 },
    }
}
