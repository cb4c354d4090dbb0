// The stores of a job's list of arcs. Follows docs/RULES.md, "Steps" and "Tables and their measures".
#![tactic(auto)]

ghost use Rattle.std.specs.Prelude.{◌≡◌};
ghost use Rattle.def_words.specs.Columns.{put};
ghost use Rattle.def_words.specs.Layout.{job_shape, FIRST, LAST, arc_shape, AFTER};
ghost use Rattle.def_words.specs.Words.{new_arc};

use graph_words::layout::*;
use graph_words::{put_arc, put_job};

// A new arc to its dependent, with none after it.
pub fn new_arc(arcs: &mut [u32], arc: u32, job: u32)
    ensures { arcs.new ≡ new_arc arcs.old arc job }
{
    put_arc(arcs, arc, DEPENDENT, job);
    put_arc(arcs, arc, AFTER, NONE);
}

// A new arc after the last of a list.
pub fn append_arc(arcs: &mut [u32], last: u32, arc: u32, job: u32)
    ensures { arcs.new ≡ put arc_shape (new_arc arcs.old arc job) last AFTER arc }
{
    new_arc(arcs, arc, job);
    put_arc(arcs, last, AFTER, arc);
}

// The only arc of a list.
pub fn put_only_arc(jobs: &mut [u32], job: u32, arc: u32)
    ensures { jobs.new ≡ put job_shape (put job_shape jobs.old job FIRST arc) job LAST arc }
{
    put_job(jobs, job, FIRST, arc);
    put_job(jobs, job, LAST, arc);
}
