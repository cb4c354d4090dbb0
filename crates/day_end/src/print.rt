// The middle lines of the day list, from a lent row of hand-outs, and the count that its last line gives. Follows
// docs/RULES.md, "The board and the day list".
ghost use Rattle.std.specs.Prelude.{◌≡◌};
ghost use Rattle.def_words.specs.Columns.{columns, header};
ghost use Rattle.def_words.specs.Layout.{job_shape, LABEL, MADE};
ghost use Rattle.def_day.specs.Rounds.{unfinished};
ghost use Rattle.def_day.specs.Rows.{in_row};
ghost use Rattle.def_day_lines.specs.Day.{hand_out_lines};
ghost use Rattle.day_text.specs.Page.{page, print_lines};

use day_text::handed_line;
use graph_words::layout::{FINISHED, LABEL, MADE};
use graph_words::{header, job_word};

// "Each middle line gives the hand-out number, name and worker": so many hand-outs of a row, or none where it does not
// hold so many. Answers the offset printed up to.
pub fn print_hand_outs(out: &mut [u8], limit: usize, at: usize, row: &[u32], count: usize) -> usize
    ensures { page result out.new
        ≡ print_lines limit (page at out.old) (hand_out_lines 0 (in_row count row.now)) }
{
    if row.len() / 2 < count {
        return at;
    }
    let mut offset = at;
    for i in 0..count {
        let name = row[2 * i];
        let worker = row[2 * i + 1];
        offset = handed_line(out, limit, offset, i, name, worker);
    }
    offset
}

// The jobs that are not finished.
pub fn count_unfinished(jobs: &[u32]) -> u32
    ensures { result ≡ unfinished (columns job_shape jobs.now LABEL) (header jobs.now MADE) }
{
    let mut left: u32 = 0;
    for job in 0..header(jobs, MADE) {
        if job_word(jobs, job, LABEL) != FINISHED {
            left += 1;
        }
    }
    left
}
