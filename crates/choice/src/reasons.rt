// Why a transition is not taken, after those that are (document 02, request vi), and the reasons of all transitions of one call.
ghost use Rattle.std.specs.Prelude.{◌≡◌, cond, eqb};
ghost use Rattle.run.specs.Apart.{counts_of};
ghost use Rattle.choice.specs.Choice.{reason, takes, reasons_of, held_reasons};
ghost use Rattle.choice.specs.Reason.{number, number_of};

use crate::Choice;
use chart::Chart;
use fields::Transition;
use run::run::StepCounter;

// In their order. Hold (request vii) comes before all of them.
#[derive(Clone, Copy, Debug, PartialEq, Eq)]
pub enum Reason {
    NotActive,
    Used,
    Signal,
    Wait,
    Occupied,
    Claimed,
    Hold,
}

impl Reason {
    pub fn number(self) -> u8
        ensures { result ≡ number self }
    {
        match self {
            Reason::NotActive => 1,
            Reason::Used => 2,
            Reason::Signal => 3,
            Reason::Wait => 4,
            Reason::Occupied => 5,
            Reason::Claimed => 6,
            Reason::Hold => 7,
        }
    }
}

// As the bytes of a call have it, the C interface's: 0 is taken.
fn number_of(why: Option<Reason>) -> u8
    ensures { result ≡ number_of why }
{
    match why {
        Some(reason) => reason.number(),
        None => 0,
    }
}

// The first test that fails, in the order of the request: of most transitions that is the first one.
#[tactic(auto, unfolding(crate::specs::Choice::reason))]
fn reason_of(
    choice: Choice,
    transition: Transition,
    targets: u64,
    counters: &[StepCounter; 64],
    active: u64,
    signals: u64,
) -> Option<Reason>
    ensures { number_of result ≡ reason choice transition.sources targets transition.on transition.off transition.wait (counts_of counters.now) active signals }
{
    if !sets::is_within(transition.sources, active) {
        return Some(Reason::NotActive);
    }
    if !sets::is_apart(transition.sources, choice.left) {
        return Some(Reason::Used);
    }
    if !(sets::is_within(transition.on, signals) & sets::is_apart(transition.off, signals)) {
        return Some(Reason::Signal);
    }
    if !crate::is_ripe(transition.wait, transition.sources, counters) {
        return Some(Reason::Wait);
    }
    if !sets::is_apart(targets, active) {
        return Some(Reason::Occupied);
    }
    if !sets::is_apart(targets, choice.claimed) {
        return Some(Reason::Claimed);
    }
    None
}

// Taken if nothing speaks against it.
fn taking_if(choice: Choice, t: usize, transition: Transition, why: Option<Reason>) -> Choice
    ensures { result ≡ cond (eqb (number_of why) 0) (takes choice t transition.sources transition.targets) choice }
{
    match why {
        Some(_) => choice,
        None => choice.with(t, transition),
    }
}

// Of each transition in number order, after those taken before it, of a run that is not held.
pub fn explain(chart: &Chart, counters: &[StepCounter; 64], active: u64, signals: u64) -> [u8; 64]
    ensures { result ≡ reasons_of 0 chart.now.edition chart.now.transitions chart.now.sources chart.now.targets chart.now.on chart.now.off chart.now.wait (counts_of counters.now) active signals }
{
    let mut reasons = [0; 64];
    let mut choice = Choice::none();
    for t in 0..chart.transitions.min(64) {
        let transition = chart.transition(t);
        let targets = crate::tested(chart.edition, transition.targets);
        let why = reason_of(choice, transition, targets, counters, active, signals);
        reasons[t] = number_of(why);
        choice = taking_if(choice, t, transition, why);
    }
    reasons
}

// Of a run that is held (document 02, request vii): no transition is looked at.
pub fn hold_all(n: usize) -> [u8; 64]
    ensures { result ≡ held_reasons n }
{
    let mut reasons = [0; 64];
    reasons[..n.min(64)].fill(Reason::Hold.number());
    reasons
}
