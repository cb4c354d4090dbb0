// The gets of a round: every worker gets, in order. Follows docs/RULES.md, "The board and the day list".
ghost use Rattle.std.specs.Prelude.{◌≡◌, ◌+◌, ◌≤◌, ◌<◌, length};
ghost use Rattle.def_numbers.specs.Numbers.{most_workers};
ghost use Rattle.lent_graph.specs.Lent.{words, Same};
ghost use Rattle.def_day.specs.Rounds.{gets, get_round};
ghost use Rattle.day_calls.specs.Gotten.{gotten};

use day_told::name_handed;
use def_day::{Holder, Holders};
use def_numbers::MOST_WORKERS;
use graph_get::get;
use lent_graph::Graph;

// A worker gets, and is one holder more if it was handed a job.
fn get_one(graph: &mut Graph, worker: u32, holders: &mut Holders)
    requires { length holders.old < most_workers }
    ensures same { Same graph.old graph.new }
    ensures got { gets (words graph.new) holders.new
        ≡ gotten graph.old.sizes worker (words graph.old) holders.old }
    ensures one_more { length holders.new ≤ length holders.old + 1 }
{
    let answer = get(graph, worker);
    if let Some(name) = name_handed(answer) {
        holders.push(Holder { worker, name });
    }
}

// Every worker gets, in order. With more workers than the limit every get is refused, so nobody holds a job.
pub fn get_all(graph: &mut Graph) -> Holders
    ensures same { Same graph.old graph.new }
    ensures got { gets (words graph.new) result ≡ get_round graph.old.sizes (words graph.old) }
{
    let mut holders = Holders::new();
    for worker in 0..graph.sizes.workers.min(MOST_WORKERS) {
        get_one(graph, worker, &mut holders);
    }
    holders
}
