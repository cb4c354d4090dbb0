// The words of the five tables, each read and stored by its table, record and field. Follows docs/RULES.md, "Tables and
// their measures". Nothing is required of a table: past its end a read answers 0 and a store does nothing.
#![tactic(auto)]

ghost use Rattle.std.specs.Prelude.{◌≡◌, ◌+◌, ◌-◌, get_or, set};
ghost use Rattle.def_words.specs.Columns.{columns, put, header, put_header};
ghost use Rattle.def_words.specs.Layout.{job_shape, arc_shape, bucket_shape, queue_shape, worker_shape, NAMES, NEWEST};
ghost use Rattle.def_words.specs.Words.{put_count, put_outcome};

pub mod layout;

use layout::*;

pub fn word(s: &[u32], i: usize) -> u32
    ensures { result ≡ get_or s.now i 0 }
{
    s.get(i).copied().unwrap_or(0)
}

pub fn put_word(s: &mut [u32], i: usize, v: u32)
    ensures { s.new ≡ set s.old i v }
{
    if i < s.len() {
        s[i] = v;
    }
}

// Word `field` of record `i` of a table whose records have `width` words and follow `head` counters.
fn column(s: &[u32], head: u32, width: u32, i: u32, field: usize) -> u32
    ensures { result ≡ columns (record { head = head; width = width }) s.now field i }
{
    if field < (width as usize) {
        word(s, (head as usize) + (width as usize) * (i as usize) + field)
    } else {
        0
    }
}

fn put_column(s: &mut [u32], head: u32, width: u32, i: u32, field: u32, v: u32)
    ensures { s.new ≡ put (record { head = head; width = width }) s.old i field v }
{
    put_word(
        s,
        (head as usize) + (width as usize) * (i as usize) + (field as usize),
        v,
    );
}

// A counter of a table.
pub fn header(s: &[u32], field: u32) -> u32
    ensures { result ≡ header s.now field }
{
    word(s, field as usize)
}

pub fn put_header(s: &mut [u32], field: u32, v: u32)
    ensures { s.new ≡ put_header s.old field v }
{
    put_word(s, field as usize, v);
}

pub fn job_word(jobs: &[u32], job: u32, field: u32) -> u32
    ensures { result ≡ columns job_shape jobs.now field job }
{
    column(jobs, JOB_HEAD, JOB_WIDTH, job, field as usize)
}

pub fn put_job(jobs: &mut [u32], job: u32, field: u32, v: u32)
    ensures { jobs.new ≡ put job_shape jobs.old job field v }
{
    put_column(jobs, JOB_HEAD, JOB_WIDTH, job, field, v);
}

// A job's count, and its spoiled word where the note is 1. That word is not read.
pub fn put_count(jobs: &mut [u32], job: u32, count: u32, note: u32)
    ensures { jobs.new ≡ put_count jobs.old job count note }
{
    put_job(jobs, job, COUNT, count);
    if note == 1 {
        put_job(jobs, job, SPOILED, 1);
    }
}

// A job is finished, with its outcome.
pub fn put_outcome(jobs: &mut [u32], job: u32, outcome: u32)
    ensures { jobs.new ≡ put_outcome jobs.old job outcome }
{
    put_job(jobs, job, LABEL, FINISHED);
    put_job(jobs, job, OUTCOME, outcome);
}

pub fn arc_word(arcs: &[u32], arc: u32, field: u32) -> u32
    ensures { result ≡ columns arc_shape arcs.now field arc }
{
    column(arcs, ARC_HEAD, ARC_WIDTH, arc, field as usize)
}

pub fn put_arc(arcs: &mut [u32], arc: u32, field: u32, v: u32)
    ensures { arcs.new ≡ put arc_shape arcs.old arc field v }
{
    put_column(arcs, ARC_HEAD, ARC_WIDTH, arc, field, v);
}

// The newest job of a bucket.
pub fn bucket_word(buckets: &[u32], bucket: u32) -> u32
    ensures { result ≡ columns bucket_shape buckets.now NEWEST bucket }
{
    column(buckets, BUCKET_HEAD, BUCKET_WIDTH, bucket, 0)
}

pub fn put_bucket(buckets: &mut [u32], bucket: u32, v: u32)
    ensures { buckets.new ≡ put bucket_shape buckets.old bucket NEWEST v }
{
    put_column(buckets, BUCKET_HEAD, BUCKET_WIDTH, bucket, 0, v);
}

// The job or the position of a cell of the queue, or the slot of the index that shares its record.
pub fn queue_word(queue: &[u32], cell: u32, field: u32) -> u32
    ensures { result ≡ columns queue_shape queue.now field cell }
{
    column(queue, QUEUE_HEAD, QUEUE_WIDTH, cell, field as usize)
}

pub fn put_queue(queue: &mut [u32], cell: u32, field: u32, v: u32)
    ensures { queue.new ≡ put queue_shape queue.old cell field v }
{
    put_column(queue, QUEUE_HEAD, QUEUE_WIDTH, cell, field, v);
}

pub fn worker_word(workers: &[u32], worker: u32, field: u32) -> u32
    ensures { result ≡ columns worker_shape workers.now field worker }
{
    column(workers, WORKER_HEAD, WORKER_WIDTH, worker, field as usize)
}

pub fn put_worker(workers: &mut [u32], worker: u32, field: u32, v: u32)
    ensures { workers.new ≡ put worker_shape workers.old worker field v }
{
    put_column(workers, WORKER_HEAD, WORKER_WIDTH, worker, field, v);
}

// Name `i` of a worker's list. The sum is formed in 64 bits, where it cannot wrap.
pub fn name_word(workers: &[u32], worker: u32, i: u32) -> u32
    ensures { result ≡ columns worker_shape workers.now (NAMES + i) worker }
{
    column(
        workers,
        WORKER_HEAD,
        WORKER_WIDTH,
        worker,
        (NAMES as usize) + (i as usize),
    )
}

// The difference, or 0 where it would fall below 0.
pub fn less(x: u32, y: u32) -> u32
    ensures { result ≡ x - y }
{
    x.saturating_sub(y)
}
