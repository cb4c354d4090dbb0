// The job of a name: the walk along the name's bucket. Follows docs/RULES.md, "Tables and their measures" and, for
// number 9, "Turned-away calls". Nothing is required of a table: the walk passes at most as many jobs as were made, and
// says where it met a damaged word.
#![tactic(auto)]

ghost use Rattle.std.specs.Prelude.{◌≡◌, List, ℕ};
ghost use Rattle.def_words.specs.Columns.{columns};
ghost use Rattle.def_words.specs.Layout.{job_shape, tables, view};
ghost use Rattle.def_words.specs.Words.{walk, find_of};

use def_bucket::bucket;
use def_terms::Sizes;
use def_words::Found;
use graph_words::layout::{MADE, NAME, NEXT, NONE};
use graph_words::{bucket_word, header, job_word};

fn walk_from(jobs: &[u32], made: u32, name: u32, newest: u32) -> Found
    ensures { result ≡ walk made (columns job_shape jobs.now) made name newest }
{
    let mut at = newest;
    for _ in 0..made {
        if at == NONE {
            return Found::Missing;
        }
        if at >= made {
            return Found::Damaged;
        }
        if job_word(jobs, at, NAME) == name {
            return Found::At { job: at };
        }
        at = job_word(jobs, at, NEXT);
    }
    if at == NONE {
        Found::Missing
    } else {
        Found::Damaged
    }
}

// The arcs, the queue and the workers are not read: it holds with any.
pub fn find(sizes: Sizes, jobs: &[u32], buckets: &[u32], name: u32) -> Found
    ensures { (arcs queue workers : List ℕ)
        → result ≡ find_of sizes (view (tables jobs.now arcs buckets.now queue workers)) name }
{
    let made = header(jobs, MADE);
    let newest = bucket_word(buckets, bucket(name, sizes.bits));
    walk_from(jobs, made, name, newest)
}
