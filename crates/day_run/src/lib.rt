// The rounds of a day: the hand-outs are stored in a lent row, two words for each, its name and its worker. Follows
// docs/RULES.md, "The board and the day list". A hand-out past the row's end is not stored.
#![tactic(auto)]

ghost use Rattle.std.specs.Prelude.{◌≡◌, ◌+◌, ◌^◌, ◌≤◌, length};
ghost use Rattle.def_numbers.specs.Numbers.{most_workers};
ghost use Rattle.lent_graph.specs.Lent.{words, Same};
ghost use Rattle.def_day.specs.Rounds.{run_day};
ghost use Rattle.def_day.specs.Rows.{stored};
ghost use Rattle.day_run.specs.Kept.{kept, run_kept};

mod round;

use def_day::Holder;
use graph_words::put_word;
use lent_graph::Graph;
use round::run_round;

// Stores the hand-outs of a round, the first of them being hand-out `at`.
fn store(holders: &[Holder], row: &mut [u32], at: usize)
    requires { (at ≤ 2 ^ 48) × (length holders.now ≤ most_workers) }
    ensures { row.new ≡ stored row.old at holders.now }
{
    for (i, holder) in holders.iter().enumerate() {
        let offset = 2 * (at + i);
        put_word(row, offset, holder.name);
        put_word(row, offset + 1, holder.worker);
    }
}

// Rounds, until one hands out nothing. Each before the last hands out a job, so there are at most one more than jobs.
// Answers how many jobs were handed out.
pub fn run_rounds(graph: &mut Graph, row: &mut [u32]) -> usize
    ensures same { Same graph.old graph.new }
    ensures run { kept (words graph.new) row.new result
        ≡ run_kept 0 row.old (run_day graph.old.sizes (words graph.old)) }
{
    let mut handed: usize = 0;
    for _ in 0..=graph.sizes.jobs {
        let holders = run_round(graph);
        let holders = holders.as_slice();
        if holders.is_empty() {
            return handed;
        }
        store(holders, row, handed);
        handed += holders.len();
    }
    handed
}
