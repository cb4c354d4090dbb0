// The sizes of a graph: their limits, the words that the tables need for them, and whether they are those laid out.
// Follows docs/RULES.md, "Tables and their measures" and "Turned-away calls", number 1.
#![tactic(auto)]

ghost use Rattle.std.specs.Prelude.{◌≡◌, true, ◌^◌, ◌≤◌};
ghost use Rattle.def_numbers.specs.Numbers.{most_bits};
ghost use Rattle.def_terms.specs.Terms.{within_limits};
ghost use Rattle.def_words.specs.Layout.{need, long_enough, sizes_kept, room_for, sizes_fit, tables};

use def_numbers::*;
use def_terms::Sizes;
use graph_words::header;
use graph_words::layout::*;

pub fn within_limits(sizes: Sizes) -> bool
    ensures { result ≡ within_limits sizes }
{
    (1 <= sizes.jobs)
        & (sizes.jobs <= MOST_JOBS)
        & (sizes.arcs <= MOST_ARCS)
        & ((1 <= sizes.bits) & (sizes.bits <= MOST_BITS))
        & ((1 <= sizes.workers) & (sizes.workers <= MOST_WORKERS))
}

// The words that a table of `n` records needs.
pub fn need(head: u32, width: u32, n: u32) -> usize
    ensures { result ≡ need (record { head = head; width = width }) n }
{
    (head as usize) + (width as usize) * (n as usize)
}

fn two_to(bits: u32) -> u32
    requires { bits ≤ most_bits }
    ensures { result ≡ 2 ^ bits }
{
    1 << bits
}

fn long_enough(
    sizes: Sizes,
    jobs: &[u32],
    arcs: &[u32],
    buckets: &[u32],
    queue: &[u32],
    workers: &[u32],
) -> bool
    requires { within_limits sizes ≡ true }
    ensures { result ≡ long_enough sizes (tables jobs.now arcs.now buckets.now queue.now workers.now) }
{
    (need(JOB_HEAD, JOB_WIDTH, sizes.jobs) <= jobs.len())
        & (need(ARC_HEAD, ARC_WIDTH, sizes.arcs) <= arcs.len())
        & (need(BUCKET_HEAD, BUCKET_WIDTH, two_to(sizes.bits)) <= buckets.len())
        & (need(QUEUE_HEAD, QUEUE_WIDTH, sizes.jobs) <= queue.len())
        & (need(WORKER_HEAD, WORKER_WIDTH, sizes.workers) <= workers.len())
}

// The sizes are within their limits, and the tables are long enough for them.
pub fn room_for(
    sizes: Sizes,
    jobs: &[u32],
    arcs: &[u32],
    buckets: &[u32],
    queue: &[u32],
    workers: &[u32],
) -> bool
    ensures { result ≡ room_for sizes (tables jobs.now arcs.now buckets.now queue.now workers.now) }
{
    let within = within_limits(sizes);
    if within {
        long_enough(sizes, jobs, arcs, buckets, queue, workers)
    } else {
        false
    }
}

fn sizes_kept(sizes: Sizes, jobs: &[u32]) -> bool
    ensures { result ≡ sizes_kept sizes jobs.now }
{
    (header(jobs, JOBS) == sizes.jobs)
        & (header(jobs, ARCS) == sizes.arcs)
        & (header(jobs, BITS) == sizes.bits)
        & (header(jobs, WORKERS) == sizes.workers)
}

// There is room for the sizes, and they are the ones laid out.
pub fn sizes_fit(
    sizes: Sizes,
    jobs: &[u32],
    arcs: &[u32],
    buckets: &[u32],
    queue: &[u32],
    workers: &[u32],
) -> bool
    ensures { result ≡ sizes_fit sizes (tables jobs.now arcs.now buckets.now queue.now workers.now) }
{
    let room = room_for(sizes, jobs, arcs, buckets, queue, workers);
    if room { sizes_kept(sizes, jobs) } else { false }
}
