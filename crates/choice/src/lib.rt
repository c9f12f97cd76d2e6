// Paragraph 2 of "One cycle": whether a transition is taken, after those that are, and if not, why (document 02, request vi).
#![tactic(auto)]

pub mod reasons;

ghost use Rattle.std.specs.Prelude.{◌≡◌, ◌&&◌};
ghost use Rattle.sets.specs.Sets.{Within, Apart};
ghost use Rattle.run.specs.Apart.{counts_of};
ghost use Rattle.choice.specs.Choice.{ripe, none_taken, takes, tested, choosing};

use fields::Transition;
pub use reasons::{Reason, explain, hold_all};
use run::run::StepCounter;

// The transitions taken so far, their sources and their targets.
#[derive(Clone, Copy, Debug, PartialEq, Eq)]
pub struct Choice {
    pub taken: u64,
    pub left: u64,
    pub claimed: u64,
}

impl Choice {
    pub fn none() -> Choice
        ensures { result ≡ none_taken }
    {
        Choice {
            taken: 0,
            left: 0,
            claimed: 0,
        }
    }

    fn with(self, t: usize, transition: Transition) -> Choice
        ensures { result ≡ takes self t transition.sources transition.targets }
    {
        Choice {
            taken: sets::with(self.taken, t),
            left: sets::joined(self.left, transition.sources),
            claimed: sets::joined(self.claimed, transition.targets),
        }
    }
}

// Only the sources are visited: any other step is ripe whatever its counter is (document 02, request v).
fn is_ripe(wait: u32, sources: u64, counters: &[StepCounter; 64]) -> bool
    ensures { result ≡ ripe wait sources (counts_of counters.now) }
{
    for k in sets::each(sources) {
        if counters[k].0 < wait {
            return false;
        }
    }
    true
}

// The targets that are tested: none in the second edition (document 02, request viii). It is a byte: the C interface, where any may be lent.
fn tested(edition: u8, targets: u64) -> u64
    ensures { result ≡ tested edition targets }
{
    if fields::is_second(edition) {
        0
    } else {
        targets
    }
}

// All tests but the wait's, which is the one that needs a loop; of most transitions the first tells.
fn is_ready(transition: Transition, targets: u64, active: u64, signals: u64, choice: Choice) -> bool
    ensures { result ≡ (Within transition.sources active && Apart transition.sources choice.left && Within transition.on signals && Apart transition.off signals && Apart targets active && Apart targets choice.claimed) }
{
    if !sets::is_within(transition.sources, active) {
        return false;
    }
    sets::is_apart(transition.sources, choice.left)
        & sets::is_within(transition.on, signals)
        & sets::is_apart(transition.off, signals)
        & sets::is_apart(targets, active)
        & sets::is_apart(targets, choice.claimed)
}

#[tactic(auto, unfolding(crate::specs::Choice::reason))]
pub fn choose_one(
    edition: u8,
    choice: Choice,
    t: usize,
    transition: Transition,
    counters: &[StepCounter; 64],
    active: u64,
    signals: u64,
) -> Choice
    ensures { result ≡ choosing edition choice t transition.sources transition.targets transition.on transition.off transition.wait (counts_of counters.now) active signals }
{
    let targets = tested(edition, transition.targets);
    if is_ready(transition, targets, active, signals, choice) {
        if is_ripe(transition.wait, transition.sources, counters) {
            return choice.with(t, transition);
        }
    }
    choice
}
