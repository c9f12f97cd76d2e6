// What cycles come to that are made one after the other where the run lies.
ghost use Rattle.std.specs.Prelude.{◌≡◌};

use refusals::Refusal;

// How many were accepted, all of them, and the transitions that the last one took.
#[derive(Clone, Copy, Debug, PartialEq, Eq)]
pub struct Went {
    pub accepted: usize,
    pub taken: u64,
}

// What stopped the cycles, and how many were accepted before it.
#[derive(Clone, Copy, Debug, PartialEq, Eq)]
pub struct Stopped {
    pub refusal: Refusal,
    pub accepted: usize,
}

// Refused before any cycle.
impl From<Refusal> for Stopped {
    ghost from_gives = { λ e s. s ≡ record { refusal = e; accepted = 0 } };

    fn from(refusal: Refusal) -> Stopped {
        Stopped {
            refusal,
            accepted: 0,
        }
    }
}

// A single cycle has nothing else to say.
impl From<Stopped> for Refusal {
    ghost from_gives = { λ s e. e ≡ s.refusal };

    fn from(stopped: Stopped) -> Refusal {
        stopped.refusal
    }
}
