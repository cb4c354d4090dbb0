// The board over a lent row of records. docs/RULES.md, "The board and the day list"; specs/Board.antt of `def_totals`
// has the definitions.
#![tactic(auto)]

ghost use Rattle.std.specs.Prelude.{◌≡◌, ◌≤◌, length, true};
ghost use Rattle.def_minutes.specs.Rising.{is_rising};
ghost use Rattle.def_numbers.specs.Numbers.{most_records};
ghost use Rattle.def_totals.specs.Board.{totals_of};
ghost use Rattle.def_totals.specs.Told.{told_totals};
ghost use Rattle.totals_of_records.specs.By.{Judged, totals_with};

use def_minutes::GraphMinutes;
use def_numbers::{ACCEPTED, MOST_RECORDS, Refusal};
use def_totals::{Board, JobRecord, Totals};
use totals_step::with_record;

// The board on a row that is not too long, by minutes that have passed the rising rule. A wrong record refuses the row.
fn board_of(records: &[JobRecord], by: &[u32; 16]) -> Result<Board, Refusal>
    requires { length records.now ≤ most_records }
    ensures { is_rising by.now ≡ true → told_totals result ≡ totals_of by.now records.now }
{
    let mut board = Board::default();
    for job in records {
        with_record(by, &mut board, *job)?;
    }
    Ok(board)
}

// The board on a lent row of records, by minutes that were judged. Where the minutes are refused, with whatever number,
// so is a row that is not too long.
pub fn of_records(records: &[JobRecord], by: GraphMinutes) -> Totals
    ensures { Judged by → result ≡ totals_with by records.now }
{
    if MOST_RECORDS < records.len() {
        return Totals::from(Err(Refusal::WrongSize));
    }
    if by.number != ACCEPTED {
        return Totals {
            number: by.number,
            jobs: [0; 3],
            minutes: [0; 3],
        };
    }
    board_of(records, &by.minutes).into()
}
