// The day of a sheet, on tables of its own that just suffice for the most workers. Follows docs/RULES.md, "The board
// and the day list". What it prints of any sheet and any number of workers is said in specs/; day_list shows when that
// is the day list.
ghost use Rattle.std.specs.Prelude.{◌≡◌};
ghost use Rattle.def_day.specs.Rounds.{day_sizes};
ghost use Rattle.day_text.specs.Page.{page};
ghost use Rattle.day_adds.specs.Adding.{entries_at};
ghost use Rattle.day_list.specs.Pages.{day_page};

use day_begin::begin_day;
use day_end::end_day;
use def_numbers::{DAY_ARCS, DAY_BITS, DAY_JOBS, MOST_WORKERS};
use def_terms::Sizes;
use graph_words::layout::*;
use lent_graph::Graph;

// The sizes of the day's graph, and the words that its tables need, with the most workers.
const DAY_BUCKETS: u32 = 16;

const JOB_WORDS: usize = (JOB_HEAD + JOB_WIDTH * DAY_JOBS) as usize;

const ARC_WORDS: usize = (ARC_HEAD + ARC_WIDTH * DAY_ARCS) as usize;

const BUCKET_WORDS: usize = (BUCKET_HEAD + BUCKET_WIDTH * DAY_BUCKETS) as usize;

const QUEUE_WORDS: usize = (QUEUE_HEAD + QUEUE_WIDTH * DAY_JOBS) as usize;

const WORKER_WORDS: usize = (WORKER_HEAD + WORKER_WIDTH * MOST_WORKERS) as usize;

// No more is handed out than there is room for jobs; a hand-out takes two words.
const ROW_WORDS: usize = (2 * DAY_JOBS) as usize;

// Answers the place printed up to.
pub fn print_day(sheet: &[u8], workers: u32, out: &mut [u8], limit: usize) -> usize
    ensures { page result out.new
        ≡ day_page limit (page 0 out.old) (day_sizes workers) (entries_at sheet.now 0) }
{
    let sizes = Sizes {
        jobs: DAY_JOBS,
        arcs: DAY_ARCS,
        bits: DAY_BITS,
        workers,
    };
    let mut job_words = [0u32; JOB_WORDS];
    let mut arc_words = [0u32; ARC_WORDS];
    let mut bucket_words = [0u32; BUCKET_WORDS];
    let mut queue_words = [0u32; QUEUE_WORDS];
    let mut worker_words = [0u32; WORKER_WORDS];
    let mut graph = Graph {
        sizes,
        jobs: &mut job_words,
        arcs: &mut arc_words,
        buckets: &mut bucket_words,
        queue: &mut queue_words,
        workers: &mut worker_words,
    };
    let mut row = [0u32; ROW_WORDS];
    let at = begin_day(sheet, &mut graph, out, limit);
    end_day(&mut graph, &mut row, out, limit, at)
}
