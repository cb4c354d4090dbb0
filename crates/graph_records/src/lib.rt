// The stores of words one after another, and of whole records: a job's, and that of a worker whose call has no
// list. Follows docs/RULES.md, "Tables and their measures". A store past a table's end changes nothing.
#![tactic(auto)]

ghost use Rattle.std.specs.Prelude.{◌≡◌, [], ◌∷◌, ◌-◌, ◌≤◌, length, replicate};
ghost use Rattle.std.proofs.lemmas.List.Edits.{sets};
ghost use Rattle.def_words.specs.Columns.{offset};
ghost use Rattle.def_words.specs.Layout.{none, job_shape, worker_shape, PHASE, bare_worker};
ghost use Rattle.def_words.specs.Words.{put_worker};

use graph_words::layout::*;
use graph_words::{put_job, put_word, put_worker};

// `count` words from `from` on, as far as the table reaches.
pub fn fill(s: &mut [u32], from: usize, count: usize, value: u32)
    ensures { s.new ≡ sets s.old from (replicate count value) }
{
    let end = s.len().min(from.saturating_add(count));
    for i in from..end {
        s[i] = value;
    }
}

// Words one after another from `from` on, as far as the table reaches.
pub fn put_words(s: &mut [u32], from: u32, words: &[u32])
    ensures { s.new ≡ sets s.old from words.now }
{
    for (i, word) in words.iter().enumerate() {
        put_word(s, (from as usize) + i, *word);
    }
}

// What differs among the words of jobs that enter: the arguments of the add, and the job after it in its bucket.
#[derive(Clone, Copy)]
pub struct JobRecord {
    pub name: u32,
    pub count: u32,
    pub class: u32,
    pub grower: u32,
    pub next: u32,
}

// A job's words: it is unexecuted, has no arcs and is not spoiled.
pub fn put_job_record(jobs: &mut [u32], job: u32, new: JobRecord)
    ensures { jobs.new
        ≡ sets jobs.old (offset job_shape job 0)
        (new.name ∷ 0 ∷ new.count ∷ new.class ∷ new.grower ∷ none ∷ none ∷ new.next ∷ 0 ∷ 0 ∷ []) }
{
    put_job(jobs, job, NAME, new.name);
    put_job(jobs, job, LABEL, UNEXECUTED);
    put_job(jobs, job, COUNT, new.count);
    put_job(jobs, job, CLASS, new.class);
    put_job(jobs, job, GROWER, new.grower);
    put_job(jobs, job, FIRST, NONE);
    put_job(jobs, job, LAST, NONE);
    put_job(jobs, job, NEXT, new.next);
    put_job(jobs, job, OUTCOME, 0);
    put_job(jobs, job, SPOILED, 0);
}

// Where a worker's record begins.
pub fn record_at(worker: u32) -> usize
    ensures { result ≡ offset worker_shape worker PHASE }
{
    (WORKER_HEAD as usize) + (WORKER_WIDTH as usize) * (worker as usize)
}

// A worker's words with a call that has no list.
pub fn put_bare_worker(workers: &mut [u32], worker: u32, phase: u32, held: u32, note: u32)
    ensures { workers.new ≡ put_worker workers.old worker (bare_worker phase held note) }
{
    fill(workers, record_at(worker), WORKER_WIDTH as usize, 0);
    put_worker(workers, worker, PHASE, phase);
    put_worker(workers, worker, HELD, held);
    put_worker(workers, worker, OWN_JOB, NONE);
    put_worker(workers, worker, OWN_ARC, NONE);
    put_worker(workers, worker, NOTE, note);
}
