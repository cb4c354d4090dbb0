// The board over the graph's own jobs, and the minutes that it goes by, as C has them: the sizes, then the lent jobs
// table. A slice is a pointer and a count of elements in C. include/taskgraph.h declares all of this. Follows
// docs/RULES.md, "The board and the day list". Assumes that a pointer with a count points to that many elements.
#![tactic(auto)]

ghost use Rattle.std.specs.Prelude.{◌≡◌};
ghost use Rattle.def_graph_board.specs.Board.{graph_minutes, graph_totals};

use def_minutes::GraphMinutes;
use def_terms::Sizes;
use def_totals::Totals;

// The board over the graph's own jobs.
#[unsafe(no_mangle)]
pub extern "C" fn tg_totals_of_graph(sizes: Sizes, jobs: &[u32]) -> Totals
    ensures { result ≡ graph_totals sizes jobs.now }
{
    graph_totals::totals_of_graph(sizes, jobs).into()
}

// The minutes of each class that the graph stores.
#[unsafe(no_mangle)]
pub extern "C" fn tg_minutes_of_graph(sizes: Sizes, jobs: &[u32]) -> GraphMinutes
    ensures { result ≡ graph_minutes sizes jobs.now }
{
    graph_totals::minutes_of_graph(sizes, jobs).into()
}
