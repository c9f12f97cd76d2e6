// What the tally and the weighing answer.
ghost use Rattle.std.specs.Prelude.{◌≡◌};
ghost use Rattle.tally.specs.declared.answer.Unweighed.TheVariants.{Refused};

use refusals::Refusal;

// The cases that passed, that failed and that did not run.
#[derive(Clone, Copy, Debug, PartialEq, Eq)]
pub struct Tally {
    pub passed: usize,
    pub failed: usize,
    pub notrun: usize,
}

// "13, 14": an unbalanced transition is named.
#[derive(Clone, Copy, Debug, PartialEq, Eq)]
pub enum Unweighed {
    Refused(Refusal),
    Unbalanced { transition: usize },
}

impl From<Refusal> for Unweighed {
    ghost from_gives = { λ r u. u ≡ Refused r };

    fn from(refusal: Refusal) -> Unweighed {
        Unweighed::Refused(refusal)
    }
}
