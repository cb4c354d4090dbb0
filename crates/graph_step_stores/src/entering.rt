// What the entering of an add stores in the tables. Follows docs/RULES.md, "Steps" and "Tables and their measures".
// Nothing is required of a table or a worker; the queue, which the function does not store in, stays, whatever it is.
ghost use Rattle.std.specs.Prelude.{◌≡◌, [], ◌∷◌, ◌+◌, ◌<◌, ◌≤◌};
ghost use Rattle.std.proofs.lemmas.List.Edits.{sets};
ghost use Rattle.def_words.specs.Columns.{offset, columns, put_header};
ghost use Rattle.def_words.specs.Layout.{none, job_shape, MADE, RESERVED, worker_shape};
ghost use Rattle.def_words.specs.Layout.{LIST_COUNT, OWN_NAME, OWN_CLASS, OWN_GROWER};
ghost use Rattle.def_words.specs.Words.{applied};
ghost use Rattle.def_words.specs.declared.Plan.TheVariants.{Enter};
ghost use Rattle.lent_graph.specs.Lent.{words, Same};

use graph_records::{JobRecord, put_job_record};
use graph_words::layout::*;
use graph_words::{put_bucket, put_header};
use graph_worker_words::{enter_worker, sum};
use lent_graph::Graph;

// The add's job enters at the head of its bucket, and its arcs are reserved.
pub fn enter(graph: &mut Graph, worker: u32, job: u32, bucket: u32, head: u32, arc: u32)
    ensures same { Same graph.old graph.new }
    ensures rest { graph.new.queue.now ≡ graph.old.queue.now }
    ensures stores { job < none → arc + columns worker_shape graph.old.workers.now LIST_COUNT worker ≤ none
        → words graph.new ≡ applied (Enter job bucket head arc) (words graph.old) worker }
{
    let name = graph.worker_word(worker, OWN_NAME);
    let count = graph.worker_word(worker, LIST_COUNT);
    let class = graph.worker_word(worker, OWN_CLASS);
    let grower = graph.worker_word(worker, OWN_GROWER);
    let new = JobRecord {
        name,
        count,
        class,
        grower,
        next: head,
    };
    put_job_record(graph.jobs, job, new);
    put_header(graph.jobs, MADE, sum(job, 1));
    put_header(graph.arcs, RESERVED, sum(arc, count));
    put_bucket(graph.buckets, bucket, job);
    enter_worker(graph.workers, worker, job, arc);
}
