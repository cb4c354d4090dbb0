// What a call or a step of the graph answers, as C has it: a struct by value. include/taskgraph.h declares it. Follows
// docs/RULES.md, "Steps" and "Turned-away calls".
#![tactic(auto)]

ghost use Rattle.std.specs.Prelude.{◌≡◌};
ghost use Rattle.def_basics.specs.Base.{pick};
ghost use Rattle.def_numbers.specs.Kinds.{kind_number};
ghost use Rattle.taskgraph_answer.specs.Answers.{plain, graph_answer};
ghost use Rattle.taskgraph_answer.specs.WholeAnswers.{stopped_answer};

use def_numbers::{DAMAGED, Kind};
use def_terms::Answer;

// What a call or a step answers. A refusal has its number, 6 also the place in the list; a job handed out has its place
// and its name, and 1 where it is spoiled. A whole call that damage stopped half done has number 9. What does not
// belong to a kind is 0.
#[repr(C)]
#[derive(Clone, Copy, Default)]
pub struct GraphAnswer {
    pub kind: u32,
    pub number: u32,
    pub place: u32,
    pub job: u32,
    pub name: u32,
    pub spoiled: u32,
}

// An answer that has nothing but its kind.
fn plain(kind: Kind) -> GraphAnswer
    ensures { result ≡ plain (kind_number kind) }
{
    GraphAnswer {
        kind: kind as u32,
        ..GraphAnswer::default()
    }
}

impl From<Answer> for GraphAnswer {
    ghost from_gives = { λ answer told. told ≡ graph_answer answer };

    fn from(answer: Answer) -> GraphAnswer {
        match answer {
            Answer::Laid => plain(Kind::LaidOut),
            Answer::Loaded => plain(Kind::Loaded),
            Answer::Posted => plain(Kind::Posted),
            Answer::Going => plain(Kind::GoingOn),
            Answer::Ended => plain(Kind::Ended),
            Answer::NoneReady => plain(Kind::NoneReady),
            Answer::Handed { out } => GraphAnswer {
                job: out.job,
                name: out.name,
                spoiled: u32::from(out.spoiled),
                ..plain(Kind::HandedOut)
            },
            Answer::Refused { number, place } => GraphAnswer {
                number,
                place,
                ..plain(Kind::Refused)
            },
        }
    }
}

// An answer of an add or a finish run whole, or that damage stopped the call half done.
pub fn whole_answered(answer: GraphAnswer, stopped: bool) -> GraphAnswer
    ensures { result ≡ pick stopped stopped_answer answer }
{
    if stopped {
        GraphAnswer {
            number: DAMAGED,
            ..plain(Kind::Stopped)
        }
    } else {
        answer
    }
}
