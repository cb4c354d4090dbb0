// One record more on a running board. docs/RULES.md, "The board and the day list"; specs/Step.antt has the definition.
// The sums wrap at 32 bits, which those of a row of at most 4,096 records never reach.
#![tactic(auto)]

ghost use Rattle.std.specs.Prelude.{◌≡◌, OnErr};
ghost use Rattle.def_totals.specs.Told.{told_totals, left};
ghost use Rattle.totals_step.specs.Step.{with_record};

use def_numbers::Refusal;
use def_terms::Label;
use def_totals::{Board, JobRecord};

// Counts one record more. A wrong label or class is damage, and leaves the board as it was.
pub fn with_record(by: &[u32; 16], board: &mut Board, job: JobRecord) -> Result<(), Refusal>
    ensures counted { told_totals (left result board.new)
        ≡ with_record by.now (told_totals (Ok board.old)) job.label job.class }
    ensures err { OnErr result (board.new ≡ board.old) }
{
    let Ok(label) = Label::try_from(job.label) else {
        return Err(Refusal::Damaged);
    };
    let Some(minutes) = by.get(job.class as usize) else {
        return Err(Refusal::Damaged);
    };
    let under = label as usize;
    board.jobs[under] = board.jobs[under].wrapping_add(1);
    board.minutes[under] = board.minutes[under].wrapping_add(*minutes);
    Ok(())
}
