// The first half of a day: the entries are added on a fresh graph, and the first line is printed. Follows
// docs/RULES.md, "The board and the day list". No line is printed from an offset past day_text's bound on.
#![tactic(auto)]

ghost use Rattle.std.specs.Prelude.{◌≡◌};
ghost use Rattle.lent_graph.specs.Lent.{words, Same};
ghost use Rattle.day_text.specs.Page.{page};
ghost use Rattle.day_entry.specs.Entered.{printout};
ghost use Rattle.day_adds.specs.Adding.{entries_at};
ghost use Rattle.day_begin.specs.Begun.{begun};

use day_adds::add_all;
use day_text::jobs_line;
use graph_layout::lay_out;
use lent_graph::Graph;

// Answers the offset printed up to.
pub fn begin_day(sheet: &[u8], graph: &mut Graph, out: &mut [u8], limit: usize) -> usize
    ensures same { Same graph.old graph.new }
    ensures printed { printout (words graph.new) (page result out.new)
        ≡ begun limit (page 0 out.old) graph.old.sizes (words graph.old) (entries_at sheet.now 0) }
{
    lay_out(graph);
    let added = add_all(sheet, graph, out, limit);
    jobs_line(out, limit, added, graph.made(), graph.sizes.workers)
}
