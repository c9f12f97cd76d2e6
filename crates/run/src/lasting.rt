// What a step counter and an action timer have in common: a number of milliseconds. They stay two types; what is done with tables of them is written
// once, for both (tables).
ghost use Rattle.std.specs.Prelude.{◌≡◌, ℕ, refl};
ghost use Rattle.run.specs.Run.{counter, timer, longer};

use crate::run::{ActionTimer, LONGEST, StepCounter};

pub trait Lasting: Copy {
    ghost ms: { Self → ℕ };

    ghost of: { ℕ → Self };

    fn ms(self) -> u32
        ensures { result ≡ ms self };

    fn of(n: u32) -> Self
        ensures { result ≡ of n };

    // "stopping at 86,400,000"
    fn longer(self, elapsed: u32) -> Self
        ensures { result ≡ of (longer elapsed (ms self)) }
    {
        Self::of(self.ms().saturating_add(elapsed).min(LONGEST))
    }

    ghost kept: { (n : ℕ) → ms (of n) ≡ n };

    ghost same: { (x : Self) → of (ms x) ≡ x };
}

impl Lasting for StepCounter {
    ghost ms = { λ c. c.0 };

    ghost of = { counter };

    ghost kept = { λ n. refl };

    ghost same = { λ c. refl };

    fn ms(self) -> u32 {
        self.0
    }

    fn of(n: u32) -> StepCounter {
        StepCounter(n)
    }
}

impl Lasting for ActionTimer {
    ghost ms = { λ t. t.0 };

    ghost of = { timer };

    ghost kept = { λ n. refl };

    ghost same = { λ t. refl };

    fn ms(self) -> u32 {
        self.0
    }

    fn of(n: u32) -> ActionTimer {
        ActionTimer(n)
    }
}
