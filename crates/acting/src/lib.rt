// Paragraphs 4 and 5 of "One cycle": what one block asks of its action, and what the actions become.
#![tactic(auto)]

ghost use Rattle.std.specs.Prelude.{◌≡◌, ◌%◌, get_or};
ghost use Rattle.run.specs.Apart.{counts_of, times_of};
ghost use Rattle.acting.specs.Acting.{kept_count, none_asked, putting, request_at, acted};

use fields::Qualifier;
use run::run::{ActionTimer, StepCounter};

// The steps that blocks go by: active now, entered, left, and those whose counter runs on.
#[derive(Clone, Copy, Debug, PartialEq, Eq)]
pub struct Steps {
    pub active: u64,
    pub entered: u64,
    pub left: u64,
    pub kept: u64,
}

// What a block asks for its action, if its condition holds: a latch also says whether the action's timer makes it active.
#[derive(Clone, Copy, Debug, PartialEq, Eq)]
pub enum Request {
    Reset(bool),
    Set(bool),
    Latch(bool, bool),
    Want(bool),
}

// The actions that blocks reset, set, latch and make active, and those that a latch makes active.
#[derive(Clone, Copy, Debug, PartialEq, Eq)]
pub struct Asked {
    pub reset: u64,
    pub set: u64,
    pub latch: u64,
    pub want: u64,
    pub ripe: u64,
}

#[derive(Clone, Copy, Debug, PartialEq, Eq)]
pub struct Acted {
    pub stored: u64,
    pub latched: u64,
    pub activity: u64,
}

// A step's counter once the steps have moved.
fn count_of(kept: u64, step: usize, counters: &[StepCounter; 64]) -> u32
    ensures { result ≡ kept_count kept (step % 64) (get_or (counts_of counters.now) (step % 64) 0) }
{
    if sets::is_in_mod(kept, step) {
        counters[step % 64].0
    } else {
        0
    }
}

fn time_of(action: usize, timers: &[ActionTimer; 32]) -> u32
    ensures { result ≡ get_or (times_of timers.now) (action % 32) 0 }
{
    timers[action % 32].0
}

// Each qualifier asks only what it needs: most blocks of a chart go by one membership alone. The numbers of a chart that passed its test are
// below 64 and 32; of any other the rest counts, so that none is tested here.
// By numbers and not by `Block`, since it takes any step and action: what may not change (this clause).
pub fn asks(
    step: usize,
    action: usize,
    qualifier: u8,
    duration: u32,
    counters: &[StepCounter; 64],
    timers: &[ActionTimer; 32],
    steps: Steps,
) -> Request
    ensures { result ≡ request_at (step % 64) qualifier duration (get_or (counts_of counters.now) (step % 64) 0) (get_or (times_of timers.now) (action % 32) 0) steps }
{
    match Qualifier::try_from(qualifier) {
        Ok(Qualifier::N) => Request::Want(sets::is_in_mod(steps.active, step)),
        Ok(Qualifier::R) => Request::Reset(sets::is_in_mod(steps.active, step)),
        Ok(Qualifier::S) => Request::Set(sets::is_in_mod(steps.active, step)),
        Ok(Qualifier::L) => {
            let count = count_of(steps.kept, step, counters);
            Request::Want(sets::is_in_mod(steps.active, step) & (count < duration))
        }
        Ok(Qualifier::D) => {
            let count = count_of(steps.kept, step, counters);
            Request::Want(sets::is_in_mod(steps.active, step) & (duration <= count))
        }
        Ok(Qualifier::P) => Request::Want(sets::is_in_mod(steps.entered, step)),
        Ok(Qualifier::Sd) => Request::Latch(
            sets::is_in_mod(steps.active, step),
            duration <= time_of(action, timers),
        ),
        Ok(Qualifier::Ds) => {
            let count = count_of(steps.kept, step, counters);
            Request::Set(sets::is_in_mod(steps.active, step) & (duration <= count))
        }
        Ok(Qualifier::Sl) => Request::Latch(
            sets::is_in_mod(steps.active, step),
            time_of(action, timers) < duration,
        ),
        Ok(Qualifier::P1) => Request::Want(sets::is_in_mod(steps.entered, step)),
        Ok(Qualifier::P0) => Request::Want(sets::is_in_mod(steps.left, step)),
        Err(_) => Request::Want(false),
    }
}

impl Asked {
    // Of no block.
    pub fn none() -> Asked
        ensures { result ≡ none_asked }
    {
        Asked {
            reset: 0,
            set: 0,
            latch: 0,
            want: 0,
            ripe: 0,
        }
    }
}

pub fn put(asked: Asked, action: usize, r: Request) -> Asked
    ensures { result ≡ putting asked (action % 64) r }
{
    let mut next = asked;
    match r {
        Request::Reset(yes) => next.reset = sets::with_if_mod(asked.reset, action, yes),
        Request::Set(yes) => next.set = sets::with_if_mod(asked.set, action, yes),
        Request::Latch(yes, ripe) => {
            next.latch = sets::with_if_mod(asked.latch, action, yes);
            next.ripe = sets::with_if_mod(asked.ripe, action, ripe);
        }
        Request::Want(yes) => next.want = sets::with_if_mod(asked.want, action, yes),
    }
    next
}

pub fn act(asked: Asked, stored: u64, latched: u64) -> Acted
    ensures { result ≡ acted asked stored latched }
{
    let kept = sets::without(sets::joined(stored, asked.set), asked.reset);
    let held = sets::without(sets::joined(latched, asked.latch), asked.reset);
    let want = sets::joined(
        asked.want,
        sets::joined(kept, sets::common(held, asked.ripe)),
    );
    Acted {
        stored: kept,
        latched: held,
        activity: sets::without(want, asked.reset),
    }
}
