// The day list: from the bytes of a sheet to the bytes printed. Follows docs/RULES.md, "The board and the day list".
#![tactic(auto)]

ghost use Rattle.std.specs.Prelude.{◌≡◌, ◌≤◌};
ghost use Rattle.def_numbers.specs.Numbers.{most_workers};
ghost use Rattle.def_day_lines.specs.Day.{day_text, printing, day_list};
ghost use Rattle.day_text.specs.Page.{page, print};

mod fresh;

use day_text::broken_line;
use def_day_lines::DayAnswer;
use def_numbers::{CUT, MOST_DAY_SHEET, MOST_WORKERS, NO_ROOM, WRONG_SIZE};
use def_sheets::Refusal;
use fresh::print_day;
use sheet_scan::scan_sheet;

// What the day list prints, stored below a limit. "A sheet that cannot be read prints only broken O N"; a longer sheet
// is cut.
fn print_list(sheet: &[u8], workers: u32, out: &mut [u8], limit: usize) -> usize
    requires { (1 ≤ workers) × (workers ≤ most_workers) }
    ensures { page result out.new
        ≡ print limit (page 0 out.old) (day_text workers sheet.now) }
{
    if MOST_DAY_SHEET < sheet.len() {
        return broken_line(out, limit, 0, MOST_DAY_SHEET, CUT);
    }
    match scan_sheet(sheet) {
        Ok(_) => print_day(sheet, workers, out, limit),
        Err(Refusal { number, at }) => broken_line(out, limit, 0, at, number),
    }
}

// The day list of a sheet with a number of workers. It is measured first, so that an output that is too short is left
// as it was.
pub fn day_list(sheet: &[u8], workers: u32, out: &mut [u8]) -> DayAnswer
    ensures { printing result out.new ≡ day_list workers sheet.now out.old }
{
    if workers < 1 || MOST_WORKERS < workers {
        return DayAnswer::Refused { number: WRONG_SIZE };
    }
    let bytes = print_list(sheet, workers, out, 0);
    if out.len() < bytes {
        return DayAnswer::Refused { number: NO_ROOM };
    }
    print_list(sheet, workers, out, bytes);
    DayAnswer::Printed { bytes }
}
