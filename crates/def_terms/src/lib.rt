// The vocabulary of the task graph: sizes and answers. What a call's arguments mean stands in specs/.
#![tactic(auto)]

ghost use Rattle.std.specs.Prelude.{◌≡◌, MatchResult};
ghost use Rattle.def_terms.specs.Terms.{bit};
ghost use Rattle.def_terms.specs.Labels.{label_word, IsNoLabel};

// The word of a truth value: an outcome, a spoiled word or a note.
pub fn bit(test: bool) -> u32
    ensures { result ≡ bit test }
{
    u32::from(test)
}

// A job's label, which stands in a word.
#[derive(Clone, Copy, Debug, PartialEq, Eq)]
pub enum Label {
    Unexecuted = 0,
    Executing = 1,
    Finished = 2,
}

// A word that is no label.
#[derive(Clone, Copy, Debug, PartialEq, Eq)]
pub struct NotALabel;

impl TryFrom<u32> for Label {
    type Error = NotALabel;

    ghost try_from_gives = { λ word label. MatchResult label (λ l. word ≡ label_word l) (λ _. IsNoLabel word) };

    fn try_from(word: u32) -> Result<Label, NotALabel> {
        match word {
            0 => Ok(Label::Unexecuted),
            1 => Ok(Label::Executing),
            2 => Ok(Label::Finished),
            _ => Err(NotALabel),
        }
    }
}

// R jobs, A arcs, b bucket bits and P workers of docs/RULES.md.
#[repr(C)]
#[derive(Clone, Copy)]
pub struct Sizes {
    pub jobs: u32,
    pub arcs: u32,
    pub bits: u32,
    pub workers: u32,
}

// What a get hands out: the job's number and its name, and whether it is spoiled.
#[derive(Clone, Copy)]
pub struct HandOut {
    pub job: u32,
    pub name: u32,
    pub spoiled: bool,
}

// What a call or a step answers.
#[derive(Clone, Copy)]
pub enum Answer {
    // The tables were laid out.
    Laid,
    // A district's minutes were loaded.
    Loaded,
    // A call was posted, and runs by steps.
    Posted,
    // A step was made, and the call goes on.
    Going,
    // A step was made that ended the call, which was accepted.
    Ended,
    // A get found the queue empty.
    NoneReady,
    // A get handed a job out.
    Handed { out: HandOut },
    // A number of the list of docs/NUMBERS.md; 6 comes with a place in the list, and for every other number the place
    // is 0.
    Refused { number: u32, place: u32 },
}
