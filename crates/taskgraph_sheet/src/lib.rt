// A sheet of adds in one call, as C has it: the sizes, the five lent tables, then the worker and the rows of the
// entries. A slice is a pointer and a count of elements in C; answers are structs by value. include/taskgraph.h
// declares all of this. Follows docs/RULES.md, "Whole calls". Assumes that a pointer with a count points to that many
// elements.
#![tactic(auto)]

ghost use Rattle.def_words.specs.Layout.{as_lent, as_left};
ghost use Rattle.def_sheet_rows.specs.SheetRows.{Added, rows_words};
ghost use Rattle.def_stops.specs.StoppedSheet.{rows_stopped};

use def_sheet_rows::SheetAdded;
use def_terms::Sizes;
use lent_graph::Graph;
use sheet_adds::add_sheet;

// Adds the entries of all rows, each whole, in order.
#[unsafe(no_mangle)]
pub extern "C" fn tg_add_sheet(
    sizes: Sizes,
    jobs: &mut [u32],
    arcs: &mut [u32],
    buckets: &mut [u32],
    queue: &mut [u32],
    workers: &mut [u32],
    worker: u32,
    rows: &[u32],
) -> SheetAdded
    ensures { Added result (as_left jobs arcs buckets queue workers)
        (rows_stopped sizes (as_lent jobs arcs buckets queue workers) worker rows.now)
        (rows_words sizes (as_lent jobs arcs buckets queue workers) worker rows.now) }
{
    let mut graph = Graph {
        sizes,
        jobs,
        arcs,
        buckets,
        queue,
        workers,
    };
    add_sheet(&mut graph, worker, rows)
}
