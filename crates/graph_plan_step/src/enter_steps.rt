// What the first steps of an add plan: the look-ups and the entering. Follows docs/RULES.md, "Steps" and "Turned-away
// calls". Each definition holds of all tables.
ghost use Rattle.std.specs.Prelude.{◌≡◌};
ghost use Rattle.def_words.specs.Layout.{view};
ghost use Rattle.def_words.specs.Words.{plan_look_up, plan_enter, plan_add};
ghost use Rattle.lent_graph.specs.Lent.{words};

use def_bucket::bucket;
use def_numbers::*;
use def_words::{Found, Plan};
use graph_find::find;
use graph_words::layout::*;
use graph_words::{bucket_word, header, name_word, worker_word};
use lent_graph::Graph;

fn plan_look_up(place: u32, found: Found) -> Plan
    ensures { result ≡ plan_look_up place found }
{
    match found {
        Found::At { .. } => Plan::Pass,
        Found::Missing => Plan::Quit {
            number: UNKNOWN_NAME,
            place,
        },
        Found::Damaged => Plan::Refuse { number: DAMAGED },
    }
}

// The sum of the arcs is formed in 64 bits, where it cannot wrap.
fn plan_enter(graph: &Graph, name: u32, count: u32, found: Found) -> Plan
    ensures { result ≡ plan_enter graph.now.sizes (view (words graph.now)) name count found }
{
    match found {
        Found::At { .. } => Plan::Quit {
            number: NAME_PRESENT,
            place: 0,
        },
        Found::Missing => {
            let made = header(graph.jobs, MADE);
            let reserved = header(graph.arcs, RESERVED);
            let full = (graph.sizes.jobs <= made)
                | ((graph.sizes.arcs as u64) < (reserved as u64) + (count as u64));
            if full {
                return Plan::Quit {
                    number: TABLES_FULL,
                    place: 0,
                };
            }
            let bucket = bucket(name, graph.sizes.bits);
            Plan::Enter {
                job: made,
                bucket,
                head: bucket_word(graph.buckets, bucket),
                arc: reserved,
            }
        }
        Found::Damaged => Plan::Refuse { number: DAMAGED },
    }
}

// An add that looks its names up, and then enters.
pub fn plan_add(graph: &Graph, worker: u32) -> Plan
    ensures { result ≡ plan_add graph.now.sizes (view (words graph.now)) worker }
{
    let place = worker_word(graph.workers, worker, PLACE);
    let count = worker_word(graph.workers, worker, LIST_COUNT);
    if place < count {
        let name = name_word(graph.workers, worker, place);
        return plan_look_up(place, find(graph.sizes, graph.jobs, graph.buckets, name));
    }
    let name = worker_word(graph.workers, worker, OWN_NAME);
    let found = find(graph.sizes, graph.jobs, graph.buckets, name);
    plan_enter(graph, name, count, found)
}
