// The second half of a day: the rounds, their lines and the last line. The hand-outs go into a lent row. Follows
// docs/RULES.md, "The board and the day list". No line is printed from an offset past day_text's bound on, and none of
// the hand-outs where the row does not hold all of them.
#![tactic(auto)]

ghost use Rattle.std.specs.Prelude.{◌≡◌};
ghost use Rattle.lent_graph.specs.Lent.{words, Same};
ghost use Rattle.day_text.specs.Page.{page};
ghost use Rattle.day_end.specs.Ended.{ended};

mod print;

use day_run::run_rounds;
use day_text::left_line;
use lent_graph::Graph;
use print::{count_unfinished, print_hand_outs};

// Answers the offset printed up to.
pub fn end_day(graph: &mut Graph, row: &mut [u32], out: &mut [u8], limit: usize, at: usize) -> usize
    ensures same { Same graph.old graph.new }
    ensures printed { page result out.new
        ≡ ended limit (page at out.old) graph.old.sizes (words graph.old) row.old }
{
    let handed = run_rounds(graph, row);
    let listed = print_hand_outs(out, limit, at, row, handed);
    left_line(out, limit, listed, count_unfinished(graph.jobs))
}
