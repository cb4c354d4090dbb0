// What turns a call away, as a kind of its own in place of a number. Each has its number of the list of
// docs/NUMBERS.md, which is what C and the answers of a call have.
ghost use Rattle.std.specs.Prelude.{◌≡◌};
ghost use Rattle.def_numbers.specs.Refusals.{refusal_number};

use crate::*;

#[derive(Clone, Copy, Debug, PartialEq, Eq)]
pub enum Refusal {
    WrongSize,
    NoSuchWorker,
    HalfDone,
    WorkerIdle,
    WrongArguments,
    UnknownName,
    NamePresent,
    TablesFull,
    Damaged,
    AlreadyHolding,
    NotHeld,
    Cut,
    WrongMap,
    WrongValue,
    NoRoom,
    TooManyEntries,
    WrongMinutes,
    JobsEntered,
    GoodForSpoiled,
}

impl From<Refusal> for u32 {
    ghost from_gives = { λ refusal number. number ≡ refusal_number refusal };

    fn from(refusal: Refusal) -> u32 {
        match refusal {
            Refusal::WrongSize => WRONG_SIZE,
            Refusal::NoSuchWorker => NO_SUCH_WORKER,
            Refusal::HalfDone => HALF_DONE,
            Refusal::WorkerIdle => WORKER_IDLE,
            Refusal::WrongArguments => WRONG_ARGUMENTS,
            Refusal::UnknownName => UNKNOWN_NAME,
            Refusal::NamePresent => NAME_PRESENT,
            Refusal::TablesFull => TABLES_FULL,
            Refusal::Damaged => DAMAGED,
            Refusal::AlreadyHolding => ALREADY_HOLDING,
            Refusal::NotHeld => NOT_HELD,
            Refusal::Cut => CUT,
            Refusal::WrongMap => WRONG_MAP,
            Refusal::WrongValue => WRONG_VALUE,
            Refusal::NoRoom => NO_ROOM,
            Refusal::TooManyEntries => TOO_MANY_ENTRIES,
            Refusal::WrongMinutes => WRONG_MINUTES,
            Refusal::JobsEntered => JOBS_ENTERED,
            Refusal::GoodForSpoiled => GOOD_FOR_SPOILED,
        }
    }
}
