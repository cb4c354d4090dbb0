// Worker 0 adds the entries of a sheet. Follows docs/RULES.md, "The board and the day list". A sheet is read up to the
// first entry that cannot be read; no line is printed from an offset past day_text's bound on.
#![tactic(auto)]

ghost use Rattle.std.specs.Prelude.{◌≡◌};
ghost use Rattle.lent_graph.specs.Lent.{words, Same};
ghost use Rattle.def_day.specs.Rounds.{add_all};
ghost use Rattle.day_text.specs.Page.{page};
ghost use Rattle.day_entry.specs.Entered.{printout, wrote};
ghost use Rattle.day_adds.specs.Adding.{entries_at, onward_of};

use day_entry::add_entry;
use def_sheets::Read;
use lent_graph::Graph;
use sheet_reader::read;

// Where the next entry starts, if one was read.
fn after(answer: Read) -> Option<usize>
    ensures { result ≡ onward_of answer }
{
    match answer {
        Read::Job { next } => Some(next),
        Read::End => None,
        Read::Refused { number: _, at: _ } => None,
    }
}

// Worker 0 adds every entry. Answers the offset printed up to.
pub fn add_all(sheet: &[u8], graph: &mut Graph, out: &mut [u8], limit: usize) -> usize
    ensures same { Same graph.old graph.new }
    ensures printed { printout (words graph.new) (page result out.new)
        ≡ wrote limit (page 0 out.old)
        (add_all graph.old.sizes 0 (entries_at sheet.now 0) (words graph.old)) }
{
    let mut at: usize = 0;
    let mut number: usize = 0;
    let mut offset: usize = 0;
    loop {
        let reading = read(sheet, at);
        let Some(next) = after(reading.answer) else {
            return offset;
        };
        let entry = reading.entry;
        offset = add_entry(graph, out, limit, offset, number, entry);
        number += 1;
        at = next;
    }
}
