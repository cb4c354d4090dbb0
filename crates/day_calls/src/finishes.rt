// The finishes of a round: each holder finishes, run whole, in the order of the gets. Follows docs/RULES.md, "The board
// and the day list".
ghost use Rattle.std.specs.Prelude.{◌≡◌};
ghost use Rattle.lent_graph.specs.Lent.{words, Same};
ghost use Rattle.def_day.specs.Rounds.{finish_all};

use def_day::Holders;
use lent_graph::Graph;
use whole_finish::finish_whole;

// Each holder finishes, and its job is good.
pub fn finish_all(graph: &mut Graph, holders: &Holders)
    ensures same { Same graph.old graph.new }
    ensures finished { words graph.new ≡ finish_all graph.old.sizes holders.now (words graph.old) }
{
    for holder in holders.as_slice() {
        finish_whole(graph, holder.worker, holder.name, false);
    }
}
