// A round of the day list: every worker gets, then each holder finishes, run whole. Follows docs/RULES.md, "The board
// and the day list".
ghost use Rattle.std.specs.Prelude.{◌≡◌};
ghost use Rattle.lent_graph.specs.Lent.{words, Same};
ghost use Rattle.def_day.specs.Rounds.{gets, round_of};

use day_calls::finishes::finish_all;
use day_calls::gets::get_all;
use def_day::Holders;
use lent_graph::Graph;

// Answers who was handed what.
pub fn run_round(graph: &mut Graph) -> Holders
    ensures same { Same graph.old graph.new }
    ensures run { gets (words graph.new) result ≡ round_of graph.old.sizes (words graph.old) }
{
    let holders = get_all(graph);
    finish_all(graph, &holders);
    holders
}
