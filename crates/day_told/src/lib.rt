// What an answer tells the day list: the name of a job that was handed out, or the number of a refusal. Follows
// docs/RULES.md, "The board and the day list".
#![tactic(auto)]

ghost use Rattle.std.specs.Prelude.{◌≡◌};
ghost use Rattle.day_told.specs.Told.{name_handed, number_refused};

use def_terms::Answer;

// The name of the job, where one was handed out.
pub fn name_handed(answer: Answer) -> Option<u32>
    ensures { result ≡ name_handed answer }
{
    match answer {
        Answer::Handed { out } => Some(out.name),
        _ => None,
    }
}

// The number of the refusal, where the call was refused.
pub fn number_refused(answer: Answer) -> Option<u32>
    ensures { result ≡ number_refused answer }
{
    match answer {
        Answer::Refused { number, .. } => Some(number),
        _ => None,
    }
}
