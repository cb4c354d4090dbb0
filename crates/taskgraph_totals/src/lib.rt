// The board over words and over a lent row of records, as C has it: totals are a struct by value. A slice is a pointer
// and a count of elements in C. include/taskgraph.h declares all of this. Follows docs/RULES.md, "The board and the day
// list". Assumes that a pointer with a count points to that many elements.
#![tactic(auto)]

ghost use Rattle.std.specs.Prelude.{◌≡◌};
ghost use Rattle.def_minutes.specs.Minutes.{fixed_minutes};
ghost use Rattle.def_totals.specs.Board.{totals_of, totals_by, totals_of_words};

use def_minutes::{fixed, rising};
use def_numbers::Refusal;
use def_totals::{JobRecord, Totals};
use totals_of_records::of_records;
use totals_of_words::of_words;

// The board on words: a label and a class for each record.
#[unsafe(no_mangle)]
pub extern "C" fn tg_totals_of_words(words: &[u32]) -> Totals
    ensures { result ≡ totals_of_words fixed_minutes words.now }
{
    of_words(words).into()
}

// The board on a lent row of records.
#[unsafe(no_mangle)]
pub extern "C" fn tg_totals_of_records(records: &[JobRecord]) -> Totals
    ensures { result ≡ totals_of fixed_minutes records.now }
{
    of_records(records, Ok(fixed()).into())
}

// The board on a lent row of records, by minutes that a host gives: one for each class.
#[unsafe(no_mangle)]
pub extern "C" fn tg_totals_by_minutes(records: &[JobRecord], minutes: &[u32]) -> Totals
    ensures { result ≡ totals_by minutes.now records.now }
{
    of_records(records, rising(minutes).ok_or(Refusal::WrongMinutes).into())
}
