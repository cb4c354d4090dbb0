// The entries of a sheet's rows, added one after another by one worker, each whole. Follows docs/RULES.md, "Whole
// calls".
#![tactic(auto)]

ghost use Rattle.std.specs.Prelude.{◌≡◌, ◌+◌, ◌*◌, ◌≤◌, ◌<◌, length, take, drop, map};
ghost use Rattle.def_numbers.specs.Numbers.{most_names, most_entries, entry_words};
ghost use Rattle.def_basics.specs.Base.{pick};
ghost use Rattle.lent_graph.specs.Lent.{words, Same};
ghost use Rattle.def_sheets.specs.Write.{entry_at, entries_from};
ghost use Rattle.thm_fused_add.specs.Sheets.{add_each_if_idle};
ghost use Rattle.def_sheet_rows.specs.Arguments.{arguments_of};
ghost use Rattle.def_sheet_rows.specs.SheetRows.{Added, rows_words};
ghost use Rattle.def_stops.specs.StoppedSheet.{rows_stopped};
ghost use Rattle.sheet_adds.specs.Stops.{stop_if_idle, or_first};

use def_numbers::{ENTRY_WORDS, WRONG_SIZE};
use def_sheet_rows::SheetAdded;
use def_sheets::Entry;
use fused_add::add_if_idle;
use graph_words::layout::PHASE;
use graph_words::worker_word;
use lent_graph::Graph;
use sheet_judge::{judge_sheet, number_of, place_of, turned_away};
use sheet_limits::{CLASS_WORD, COUNT_WORD, GROWER_WORD, NAMES_WORD};
use worker_phase::stopped_as;

// The names of a row, from a word on.
fn row_names(rows: &[u32], from: usize) -> [u32; 32]
    requires { from + most_names ≤ length rows.now }
    ensures { result ≡ take most_names (drop from rows.now) }
{
    rows[from..from + 32].try_into().unwrap_or([0; 32])
}

// The entry of a row.
fn row_entry(rows: &[u32], row: usize) -> Entry
    requires { entry_words * row + entry_words ≤ length rows.now }
    ensures { result ≡ entry_at rows.now row }
{
    let at = ENTRY_WORDS * row;
    let names = row_names(rows, at + NAMES_WORD);
    Entry {
        name: rows[at],
        count: rows[at + COUNT_WORD],
        class: rows[at + CLASS_WORD],
        grower: rows[at + GROWER_WORD],
        names,
    }
}

// The row of the first stop, counted from 1: the one noted so far, or this one; 0 is none.
fn first_stop(noted: u32, stops: bool, row: usize) -> u32
    requires { row < most_entries }
    ensures { result ≡ or_first noted (pick stops (row + 1) 0) }
{
    if (noted == 0) & stops {
        (row as u32) + 1
    } else {
        noted
    }
}

// The adds of the first rows, in order, by a worker of which the tests that come first are passed; a refused one does
// not stop the next.
fn add_rows(graph: &mut Graph, worker: u32, rows: &[u32], count: usize) -> SheetAdded
    requires { (count ≤ most_entries) × (entry_words * count ≤ length rows.now) }
    ensures same { Same graph.old graph.new }
    ensures added { Added result (words graph.new)
        (stop_if_idle graph.old.sizes worker 0 (map arguments_of (entries_from rows.now 0 count)) (words graph.old))
        (add_each_if_idle graph.old.sizes worker (map arguments_of (entries_from rows.now 0 count)) (words graph.old)) }
{
    let mut numbers: [u32; 64] = [0; 64];
    let mut places: [u32; 64] = [0; 64];
    let mut stopped: u32 = 0;
    // The tables stand in variables of their own: taken from the graph in the loop, their lengths are read again after
    // each store, and each word of a record is tested against them.
    let sizes = graph.sizes;
    let jobs = &mut *graph.jobs;
    let arcs = &mut *graph.arcs;
    let buckets = &mut *graph.buckets;
    let queue = &mut *graph.queue;
    let workers = &mut *graph.workers;
    for row in 0..count {
        let entry = row_entry(rows, row);
        let before = worker_word(workers, worker, PHASE);
        let answer = add_if_idle(sizes, jobs, arcs, buckets, queue, workers, worker, entry);
        let after = worker_word(workers, worker, PHASE);
        let number = number_of(answer);
        numbers[row] = number;
        places[row] = place_of(answer);
        stopped = first_stop(stopped, stopped_as(number, before, after), row);
    }
    SheetAdded {
        number: 0,
        numbers,
        places,
        stopped,
    }
}

// Adds the entries of all rows, each whole, in order, or turns the sheet away.
pub fn add_sheet(graph: &mut Graph, worker: u32, rows: &[u32]) -> SheetAdded
    ensures same { Same graph.old graph.new }
    ensures added { Added result (words graph.new)
        (rows_stopped graph.old.sizes (words graph.old) worker rows.now)
        (rows_words graph.old.sizes (words graph.old) worker rows.now) }
{
    if rows.len() % ENTRY_WORDS != 0 {
        return turned_away(WRONG_SIZE);
    }
    let count = rows.len() / ENTRY_WORDS;
    if let Err(refusal) = judge_sheet(graph, worker, count) {
        return turned_away(refusal.into());
    }
    add_rows(graph, worker, rows, count)
}
