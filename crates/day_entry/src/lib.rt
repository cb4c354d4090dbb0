// Worker 0 adds an entry of a sheet, run whole, and prints a line if it is refused. Follows docs/RULES.md, "The board
// and the day list". No line is printed from an offset past day_text's bound on.
#![tactic(auto)]

ghost use Rattle.std.specs.Prelude.{◌≡◌};
ghost use Rattle.lent_graph.specs.Lent.{words, Same};
ghost use Rattle.def_sheet_rows.specs.Arguments.{arguments_of};
ghost use Rattle.def_day.specs.Rounds.{refusal};
ghost use Rattle.def_day_lines.specs.Day.{refusal_lines};
ghost use Rattle.day_text.specs.Page.{page, print_lines};
ghost use Rattle.day_entry.specs.Entered.{entered, printout, wrote};

use day_text::refused_line;
use day_told::number_refused;
use def_sheets::Entry;
use def_terms::Answer;
use lent_graph::Graph;
use whole_add::add_whole;

// "A refused entry puts refused I N before the first line."
fn print_refusal(out: &mut [u8], limit: usize, at: usize, entry: usize, answer: Answer) -> usize
    ensures { page result out.new
        ≡ print_lines limit (page at out.old) (refusal_lines (refusal entry answer)) }
{
    match number_refused(answer) {
        Some(number) => refused_line(out, limit, at, entry, number),
        None => at,
    }
}

// Worker 0 adds an entry, run whole. Answers the offset printed up to.
pub fn add_entry(
    graph: &mut Graph,
    out: &mut [u8],
    limit: usize,
    at: usize,
    number: usize,
    entry: Entry,
) -> usize
    ensures same { Same graph.old graph.new }
    ensures printed { printout (words graph.new) (page result out.new)
        ≡ wrote limit (page at out.old)
        (entered graph.old.sizes number (words graph.old) (arguments_of entry)) }
{
    let answer = add_whole(graph, 0, entry);
    print_refusal(out, limit, at, number, answer)
}
