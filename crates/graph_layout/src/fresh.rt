// The stores of laying out. Follows docs/RULES.md, "Tables and their measures": no jobs, all workers idle and holding
// nothing, the fixed minutes, unused words 0, every place none.
ghost use Rattle.std.specs.Prelude.{◌≡◌, ◌+◌, ◌*◌, ◌^◌, ◌≤◌};
ghost use Rattle.std.proofs.lemmas.List.Edits.{sets};
ghost use Rattle.def_numbers.specs.Numbers.{most_bits};
ghost use Rattle.def_minutes.specs.Minutes.{fixed_minutes};
ghost use Rattle.def_words.specs.Columns.{offset};
ghost use Rattle.def_words.specs.Layout.{none, job_shape, worker_shape, IDLE, bare_worker, repeated, fresh_job, fresh_jobs};
ghost use Rattle.def_words.specs.Layout.{put_minutes, fresh_arcs, fresh_buckets, fresh_queue, fresh_tables};
ghost use Rattle.lent_graph.specs.Lent.{words, Same};

use def_numbers::*;
use def_terms::Sizes;
use graph_records::{JobRecord, fill, put_bare_worker, put_job_record, put_words};
use graph_words::layout::*;
use graph_words::put_header;
use lent_graph::Graph;

// The records of the jobs table.
fn fresh_job_records(jobs: &mut [u32], count: u32)
    ensures { jobs.new ≡ sets jobs.old (offset job_shape 0 0) (repeated count fresh_job) }
{
    let fresh = JobRecord {
        name: 0,
        count: 0,
        class: 0,
        grower: 0,
        next: NONE,
    };
    for job in 0..count {
        put_job_record(jobs, job, fresh);
    }
}

// The records of the workers.
fn fresh_workers(workers: &mut [u32], count: u32)
    ensures { workers.new
        ≡ sets workers.old (offset worker_shape 0 0) (repeated count (bare_worker IDLE none 0)) }
{
    for worker in 0..count {
        put_bare_worker(workers, worker, IDLE, NONE, 0);
    }
}

// The fixed minutes of all classes.
fn fresh_minutes(jobs: &mut [u32])
    ensures { jobs.new ≡ put_minutes jobs.old fixed_minutes }
{
    let fixed = def_minutes::fixed();
    put_words(jobs, MINUTES, &fixed);
}

fn fresh_jobs(sizes: Sizes, jobs: &mut [u32])
    ensures { jobs.new ≡ sets jobs.old 0 (fresh_jobs sizes) }
{
    put_header(jobs, JOBS, sizes.jobs);
    put_header(jobs, ARCS, sizes.arcs);
    put_header(jobs, BITS, sizes.bits);
    put_header(jobs, WORKERS, sizes.workers);
    put_header(jobs, MADE, 0);
    fresh_minutes(jobs);
    fresh_job_records(jobs, sizes.jobs);
}

fn fresh_arcs(sizes: Sizes, arcs: &mut [u32])
    ensures { arcs.new ≡ sets arcs.old 0 (fresh_arcs sizes) }
{
    put_header(arcs, RESERVED, 0);
    fill(
        arcs,
        ARC_HEAD as usize,
        (ARC_WIDTH as usize) * (sizes.arcs as usize),
        NONE,
    );
}

// The number of buckets, where the bits are within their limit.
pub fn buckets_of(bits: u32) -> usize
    ensures { bits ≤ most_bits → result ≡ 2 ^ bits }
{
    if bits <= MOST_BITS { 1 << bits } else { 0 }
}

fn fresh_buckets(sizes: Sizes, buckets: &mut [u32])
    ensures { sizes.bits ≤ most_bits
        → buckets.new ≡ sets buckets.old 0 (fresh_buckets sizes) }
{
    let count = buckets_of(sizes.bits);
    fill(buckets, BUCKET_HEAD as usize, count, NONE);
}

fn fresh_queue(sizes: Sizes, queue: &mut [u32])
    ensures { queue.new ≡ sets queue.old 0 (fresh_queue sizes) }
{
    put_header(queue, TAKEN, 0);
    put_header(queue, PUT, 0);
    fill(
        queue,
        QUEUE_HEAD as usize,
        (QUEUE_WIDTH as usize) * (sizes.jobs as usize),
        NONE,
    );
}

// The five tables of a fresh graph.
pub fn fresh_tables(graph: &mut Graph)
    ensures same { Same graph.old graph.new }
    ensures fresh { graph.old.sizes.bits ≤ most_bits
        → words graph.new ≡ fresh_tables graph.old.sizes (words graph.old) }
{
    fresh_jobs(graph.sizes, graph.jobs);
    fresh_arcs(graph.sizes, graph.arcs);
    fresh_buckets(graph.sizes, graph.buckets);
    fresh_queue(graph.sizes, graph.queue);
    fresh_workers(graph.workers, graph.sizes.workers);
}
