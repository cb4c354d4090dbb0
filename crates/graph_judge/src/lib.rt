// What turns the posts of an add and of a finish away: it reads and judges, and stores nothing. Follows docs/RULES.md,
// "Turned-away calls". Each definition holds of all tables and arguments. The tests that come first are the graph's
// `admit`, as in a step: docs/DECISIONS.md, 43.
#![tactic(auto)]

ghost use Rattle.std.specs.Prelude.{◌≡◌, List, ℕ, eqb};
ghost use Rattle.def_numbers.specs.Numbers.{half_done, wrong_arguments, damaged};
ghost use Rattle.def_numbers.specs.Refusals.{number_told};
ghost use Rattle.def_basics.specs.Base.{pick};
ghost use Rattle.def_terms.specs.Terms.{arguments_wrong, finish_of};
ghost use Rattle.def_words.specs.Columns.{columns};
ghost use Rattle.def_words.specs.Layout.{worker_shape, PHASE, IDLE, tables, view};
ghost use Rattle.def_words.specs.Words.{admitted, refusal, judged_add, judged_outcome, judged_finish};
ghost use Rattle.lent_graph.specs.Lent.{words};
ghost use Rattle.def_sheet_rows.specs.Arguments.{arguments_of};

use def_numbers::Refusal;
use def_sheets::Entry;
use def_terms::Sizes;
use graph_arguments::arguments_wrong;
use graph_own::counters_ok;
use graph_words::layout::*;
use graph_words::{job_word, worker_word};
use lent_graph::Graph;

// What turns the post of an add away, given whether the counters are within their range.
fn judge_admitted_add(
    workers: &[u32],
    worker: u32,
    counted: bool,
    entry: Entry,
) -> Result<(), Refusal>
    ensures { number_told result ≡ pick (eqb (columns worker_shape workers.now PHASE worker) IDLE)
        (pick (arguments_wrong (arguments_of entry)) wrong_arguments (pick counted 0 damaged)) half_done }
{
    if worker_word(workers, worker, PHASE) != IDLE {
        return Err(Refusal::HalfDone);
    }
    let wrong = arguments_wrong(
        entry.name,
        &entry.names,
        entry.count,
        entry.class,
        entry.grower,
    );
    if wrong {
        return Err(Refusal::WrongArguments);
    }
    if counted {
        Ok(())
    } else {
        Err(Refusal::Damaged)
    }
}

// What turns the post of an add away.
pub fn judge_add(graph: &Graph, worker: u32, entry: Entry) -> Result<(), Refusal>
    ensures { number_told result
        ≡ admitted graph.now.sizes (words graph.now) worker refusal
        (judged_add graph.now.sizes (view (words graph.now)) worker (arguments_of entry)) }
{
    graph.admit(worker)?;
    let counted = counters_ok(graph.sizes, graph.jobs, graph.arcs);
    judge_admitted_add(graph.workers, worker, counted, entry)
}

// What turns a finish of the held job away, failed or good: the counters or the job's spoiled word off their range, and
// then good for a spoiled job.
pub fn judge_outcome(
    sizes: Sizes,
    jobs: &[u32],
    arcs: &[u32],
    job: u32,
    failed: bool,
) -> Result<(), Refusal>
    ensures { (buckets queue workers : List ℕ)
        → number_told result ≡ judged_outcome sizes (view (tables jobs.now arcs.now buckets queue workers)) job
        failed }
{
    let spoiled = job_word(jobs, job, SPOILED);
    let sound = counters_ok(sizes, jobs, arcs) & (spoiled <= 1);
    if !sound {
        return Err(Refusal::Damaged);
    }
    if (spoiled == 1) & !failed {
        return Err(Refusal::GoodForSpoiled);
    }
    Ok(())
}

// The same for a finish. The held job's words are read only where there is one.
fn judge_admitted_finish(graph: &Graph, worker: u32, name: u32, failed: bool) -> Result<(), Refusal>
    ensures { number_told result
        ≡ judged_finish graph.now.sizes (view (words graph.now)) worker (finish_of name failed) }
{
    if graph.worker_word(worker, PHASE) != IDLE {
        return Err(Refusal::HalfDone);
    }
    let held = graph.worker_word(worker, HELD);
    if held == NONE || job_word(graph.jobs, held, NAME) != name {
        return Err(Refusal::NotHeld);
    }
    judge_outcome(graph.sizes, graph.jobs, graph.arcs, held, failed)
}

// What turns the post of a finish away.
pub fn judge_finish(graph: &Graph, worker: u32, name: u32, failed: bool) -> Result<(), Refusal>
    ensures { number_told result
        ≡ admitted graph.now.sizes (words graph.now) worker refusal
        (judged_finish graph.now.sizes (view (words graph.now)) worker (finish_of name failed)) }
{
    graph.admit(worker)?;
    judge_admitted_finish(graph, worker, name, failed)
}
