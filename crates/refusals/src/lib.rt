// The numbers of refusal of documents 01 and 02, named, and the answer of a call that has nothing else to say: accepted, or why not.
#![tactic(auto)]

ghost use Rattle.std.specs.Prelude.{◌≡◌, cond};
ghost use Rattle.refusals.specs.Refusals.{number, code_of};

use std::fmt;

#[derive(Clone, Copy, Debug, PartialEq, Eq)]
pub enum Refusal {
    Cut,
    BadKind,
    BadLength,
    TooMany,
    BadField,
    BadSteps,
    BadSignals,
    TimedTwice,
    NoInitial,
    Surplus,
    TooLate,
    OtherRun,
    WrongWeights,
    Unbalanced,
    FewOutputs,
    BadTrace,
    TooFewBytes,
    UnevenLists,
    NoText,
    OtherIndex,
    SumTooLarge,
    OutOfOrder,
}

impl Refusal {
    pub fn number(self) -> u8
        ensures { result ≡ number self }
    {
        match self {
            Refusal::Cut => 1,
            Refusal::BadKind => 2,
            Refusal::BadLength => 3,
            Refusal::TooMany => 4,
            Refusal::BadField => 5,
            Refusal::BadSteps => 6,
            Refusal::BadSignals => 7,
            Refusal::TimedTwice => 8,
            Refusal::NoInitial => 9,
            Refusal::Surplus => 10,
            Refusal::TooLate => 11,
            Refusal::OtherRun => 12,
            Refusal::WrongWeights => 13,
            Refusal::Unbalanced => 14,
            Refusal::FewOutputs => 15,
            Refusal::BadTrace => 16,
            Refusal::TooFewBytes => 17,
            Refusal::UnevenLists => 18,
            Refusal::NoText => 19,
            Refusal::OtherIndex => 20,
            Refusal::SumTooLarge => 21,
            Refusal::OutOfOrder => 25,
        }
    }
}

// Its number, as a printed run has it.
impl fmt::Display for Refusal {
    fn fmt<W: fmt::Write>(&self, f: &mut fmt::Formatter<W>) -> fmt::Result {
        write!(f, "{}", self.number())
    }
}

// Accepted if the test holds.
pub fn unless(ok: bool, refusal: Refusal) -> Result<(), Refusal>
    ensures { code_of result ≡ cond ok 0 (number refusal) }
{
    if ok { Ok(()) } else { Err(refusal) }
}

// The number that a program in another language sees: 0 if accepted.
pub fn code_of(answer: Result<(), Refusal>) -> u8
    ensures { result ≡ code_of answer }
{
    match answer {
        Ok(()) => 0,
        Err(refusal) => refusal.number(),
    }
}
