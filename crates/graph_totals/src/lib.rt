// The minutes that a graph stores, and the board of totals over its own jobs by them: the label and class of each job
// that was made. Follows docs/RULES.md, "The board and the day list" and "Turned-away calls".
#![tactic(auto)]

ghost use Rattle.std.specs.Prelude.{◌≡◌};
ghost use Rattle.def_graph_board.specs.Board.{jobs_fit, graph_minutes, graph_totals};
ghost use Rattle.def_minutes.specs.Served.{told_minutes};
ghost use Rattle.def_totals.specs.Told.{told_totals};

use def_minutes::rising;
use def_numbers::Refusal;
use def_terms::Sizes;
use def_totals::Board;
use graph_sizes::{need, within_limits};
use graph_words::header;
use graph_words::layout::*;
use totals_of_words::{Shape, of_table};

// Where the jobs stand in their table.
const JOB_SHAPE: Shape = Shape {
    head: JOB_HEAD,
    width: JOB_WIDTH,
    label: LABEL,
    class: CLASS,
};

// The sizes are within their limits and are the ones laid out, and the table of jobs is long enough for them.
fn jobs_fit(sizes: Sizes, jobs: &[u32]) -> bool
    ensures { result ≡ jobs_fit sizes jobs.now }
{
    within_limits(sizes)
        & (need(JOB_HEAD, JOB_WIDTH, sizes.jobs) <= jobs.len())
        & ((header(jobs, JOBS) == sizes.jobs)
            & (header(jobs, ARCS) == sizes.arcs)
            & (header(jobs, BITS) == sizes.bits)
            & (header(jobs, WORKERS) == sizes.workers))
}

// The stored minutes. Words off their limits are damage.
pub fn minutes_of_graph(sizes: Sizes, jobs: &[u32]) -> Result<[u32; 16], Refusal>
    ensures { told_minutes result ≡ graph_minutes sizes jobs.now }
{
    if !jobs_fit(sizes, jobs) {
        return Err(Refusal::WrongSize);
    }
    rising(&jobs[MINUTES as usize..JOB_HEAD as usize]).ok_or(Refusal::Damaged)
}

// The totals of the jobs that were made, by the stored minutes. A counter of more jobs than the table has is damage.
pub fn totals_of_graph(sizes: Sizes, jobs: &[u32]) -> Result<Board, Refusal>
    ensures { told_totals result ≡ graph_totals sizes jobs.now }
{
    let by = minutes_of_graph(sizes, jobs)?;
    let made = header(jobs, MADE);
    if sizes.jobs < made {
        return Err(Refusal::Damaged);
    }
    of_table(&by, jobs, JOB_SHAPE, made as usize)
}
