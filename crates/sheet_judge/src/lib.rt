// What turns a sheet of adds away, before any entry: it reads and judges, and stores nothing; and what is told of such
// a sheet and of an entry. Follows docs/RULES.md, "Whole calls". The definitions hold of all tables and arguments.
#![tactic(auto)]

ghost use Rattle.std.specs.Prelude.{◌≡◌, leb, eqb};
ghost use Rattle.def_numbers.specs.Numbers.{most_entries, too_many_entries, half_done};
ghost use Rattle.def_numbers.specs.Refusals.{number_told};
ghost use Rattle.def_basics.specs.Base.{pick};
ghost use Rattle.def_words.specs.Columns.{columns};
ghost use Rattle.def_words.specs.Layout.{worker_shape, PHASE, IDLE};
ghost use Rattle.lent_graph.specs.Lent.{words};
ghost use Rattle.def_whole_calls.specs.Sheet.{judged_sheet};
ghost use Rattle.def_sheet_rows.specs.SheetRows.{number_of, place_of, turned_away};

use def_numbers::{MOST_ENTRIES, Refusal};
use def_sheet_rows::SheetAdded;
use def_terms::Answer;
use graph_words::layout::*;
use graph_words::worker_word;
use lent_graph::Graph;

// What turns a sheet of so many entries away where the worker is known and sound.
fn judge_admitted_sheet(workers: &[u32], worker: u32, entries: usize) -> Result<(), Refusal>
    ensures { number_told result ≡ pick (eqb (columns worker_shape workers.now PHASE worker) IDLE)
        (pick (leb entries most_entries) 0 too_many_entries) half_done }
{
    if worker_word(workers, worker, PHASE) != IDLE {
        return Err(Refusal::HalfDone);
    }
    if entries > (MOST_ENTRIES as usize) {
        return Err(Refusal::TooManyEntries);
    }
    Ok(())
}

// What turns a sheet of so many entries away.
pub fn judge_sheet(graph: &Graph, worker: u32, entries: usize) -> Result<(), Refusal>
    ensures { number_told result ≡ judged_sheet graph.now.sizes (words graph.now) worker entries }
{
    graph.admit(worker)?;
    judge_admitted_sheet(graph.workers, worker, entries)
}

// The number that refused an add, or 0.
pub fn number_of(answer: Answer) -> u32
    ensures { result ≡ number_of answer }
{
    match answer {
        Answer::Refused { number, .. } => number,
        _ => 0,
    }
}

// The place that came with it, or 0.
pub fn place_of(answer: Answer) -> u32
    ensures { result ≡ place_of answer }
{
    match answer {
        Answer::Refused { place, .. } => place,
        _ => 0,
    }
}

// A sheet that was turned away.
pub fn turned_away(number: u32) -> SheetAdded
    ensures { result ≡ turned_away number }
{
    SheetAdded {
        number,
        numbers: [0; 64],
        places: [0; 64],
        stopped: 0,
    }
}
