// The board over a table of words. docs/RULES.md, "The board and the day list"; specs/Board.antt of `def_totals` has
// the definitions. The sums wrap at 32 bits, which those of a row of at most 4,096 records never reach.
#![tactic(auto)]

ghost use Rattle.std.specs.Prelude.{◌≡◌, true};
ghost use Rattle.def_minutes.specs.Minutes.{fixed_minutes};
ghost use Rattle.def_minutes.specs.Rising.{is_rising};
ghost use Rattle.def_totals.specs.Board.{totals_of_words, totals_of_table};
ghost use Rattle.def_totals.specs.Told.{told_totals};
ghost use Rattle.totals_of_words.specs.Standing.{standing};

use def_numbers::{MOST_RECORDS, Refusal};
use def_totals::{Board, JobRecord};
use totals_step::with_record;

// Where records stand in a table of words: after its first `head` words, each of `width` words, of which `label` and
// `class` are its label and its class.
#[derive(Clone, Copy)]
pub struct Shape {
    pub head: u32,
    pub width: u32,
    pub label: u32,
    pub class: u32,
}

impl Shape {
    // Whether so many records stand in a table of `length` words, and the label and the class lie inside a record.
    fn stands(self, length: usize, count: usize) -> bool
        ensures { result ≡ standing self.head self.width self.label self.class length count }
    {
        // First, so that the sum fits its 64 bits.
        count <= MOST_RECORDS
            && self.label < self.width
            && self.class < self.width
            && self.head as usize + self.width as usize * count <= length
    }
}

// The board on a table of words that has `count` records. A shorter table is refused, and so is a field outside the
// record. The minutes have passed the rising rule.
pub fn of_table(by: &[u32; 16], words: &[u32], shape: Shape, count: usize) -> Result<Board, Refusal>
    ensures { is_rising by.now ≡ true
        → told_totals result ≡ totals_of_table by.now shape.head shape.width shape.label shape.class words.now count }
{
    if !shape.stands(words.len(), count) {
        return Err(Refusal::WrongSize);
    }
    let mut board = Board::default();
    for i in 0..count {
        let at = shape.head as usize + shape.width as usize * i;
        let job = JobRecord {
            label: words[at + shape.label as usize],
            class: words[at + shape.class as usize],
        };
        with_record(by, &mut board, job)?;
    }
    Ok(board)
}

// A label and a class for each record.
const PAIRS: Shape = Shape {
    head: 0,
    width: 2,
    label: 0,
    class: 1,
};

// The board on words. An odd number of words is refused as too many records are.
pub fn of_words(words: &[u32]) -> Result<Board, Refusal>
    ensures { told_totals result ≡ totals_of_words fixed_minutes words.now }
{
    if words.len() % 2 != 0 {
        return Err(Refusal::WrongSize);
    }
    of_table(&def_minutes::fixed(), words, PAIRS, words.len() / 2)
}
