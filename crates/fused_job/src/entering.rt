// The entering of an add run in one go: the job's words at the head of its bucket, and its arcs reserved. Follows
// docs/RULES.md, "Steps" and "Tables and their measures". Nothing is required of a table; tables that the function is
// not lent stay, whatever they are.
ghost use Rattle.std.specs.Prelude.{◌≡◌, List, ℕ, ◌+◌, ◌<◌, ◌≤◌};
ghost use Rattle.def_words.specs.Columns.{header};
ghost use Rattle.def_words.specs.Layout.{none, MADE, RESERVED, tables};
ghost use Rattle.def_fused.specs.FusedAdd.{entered_tables};
ghost use Rattle.def_sheet_rows.specs.Arguments.{arguments_of};

use def_bucket::bucket;
use def_sheets::Entry;
use def_terms::Sizes;
use graph_records::{JobRecord, put_job_record};
use graph_words::layout::*;
use graph_words::{bucket_word, header, put_bucket, put_header};
use graph_worker_words::sum;

// The job that entered, and the first arc that it reserved.
#[derive(Clone, Copy)]
pub struct NewJob {
    pub job: u32,
    pub arc: u32,
}

// The add's job enters. Both counters stay words where the tables have room for the job and its arcs.
pub fn enter_job(
    sizes: Sizes,
    jobs: &mut [u32],
    arcs: &mut [u32],
    buckets: &mut [u32],
    entry: Entry,
) -> NewJob
    ensures { (result.job ≡ header jobs.old MADE) × (result.arc ≡ header arcs.old RESERVED)
        × (header jobs.old MADE < none
        → header arcs.old RESERVED + entry.count ≤ none
        → (queue workers : List ℕ)
        → tables jobs.new arcs.new buckets.new queue workers
        ≡ entered_tables sizes
        (tables jobs.old arcs.old buckets.old queue workers)
        (arguments_of entry)) }
{
    let job = header(jobs, MADE);
    let arc = header(arcs, RESERVED);
    let k = bucket(entry.name, sizes.bits);
    let head = bucket_word(buckets, k);
    let new = JobRecord {
        name: entry.name,
        count: entry.count,
        class: entry.class,
        grower: entry.grower,
        next: head,
    };
    put_job_record(jobs, job, new);
    put_header(jobs, MADE, sum(job, 1));
    put_header(arcs, RESERVED, sum(arc, entry.count));
    put_bucket(buckets, k, job);
    NewJob { job, arc }
}
