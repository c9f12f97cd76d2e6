// The numbers of refusal of a record's fields, kind by kind: 5, and of transitions 5, 6, 7 in this order. The reader and the held test both go by
// these, and so each is said once.
#![tactic(auto)]

ghost use Rattle.std.specs.Prelude.{◌≡◌, ◌+◌, eqb};
ghost use Rattle.refusals.specs.Refusals.{code_of};
ghost use Rattle.sets.specs.Sets.{beyond};
ghost use Rattle.fields.specs.Fields.{timed, kind_fits, step_fits, action_fits, signal_exists, transition_fits, transition_code, duration_fits, block_fits, case_fits, edition_fits, second};
ghost use Rattle.fields.specs.Qualifiers.{names};

use refusals::Refusal;

// Waits and durations are at most a day.
pub const LONGEST: u32 = 86_400_000;

#[derive(Clone, Copy, Debug, PartialEq, Eq)]
pub struct Action {
    pub output: u8,
    pub value: i32,
}

// Its steps and signals as sets.
#[derive(Clone, Copy, Debug, PartialEq, Eq)]
pub struct Transition {
    pub sources: u64,
    pub targets: u64,
    pub on: u64,
    pub off: u64,
    pub wait: u32,
}

#[derive(Clone, Copy, Debug, PartialEq, Eq)]
pub struct Block {
    pub step: u8,
    pub action: u8,
    pub qualifier: u8,
    pub duration: u32,
}

#[derive(Clone, Copy, Debug, PartialEq, Eq)]
pub struct Case {
    pub step: u8,
    pub signal: u8,
    pub expected: u8,
}

// A block's qualifier, as document 01 names them; files and tables have the bytes 0 to 10 for them.
#[derive(Clone, Copy, Debug, PartialEq, Eq)]
pub enum Qualifier {
    N,
    R,
    S,
    L,
    D,
    P,
    Sd,
    Ds,
    Sl,
    P1,
    P0,
}

impl TryFrom<u8> for Qualifier {
    type Error = Refusal;

    ghost try_from_gives = { names };

    // One jump for each block, where the blocks are gone through: as a call of its own it takes six instructions more.
    #[inline(always)]
    fn try_from(byte: u8) -> Result<Qualifier, Refusal> {
        match byte {
            0 => Ok(Qualifier::N),
            1 => Ok(Qualifier::R),
            2 => Ok(Qualifier::S),
            3 => Ok(Qualifier::L),
            4 => Ok(Qualifier::D),
            5 => Ok(Qualifier::P),
            6 => Ok(Qualifier::Sd),
            7 => Ok(Qualifier::Ds),
            8 => Ok(Qualifier::Sl),
            9 => Ok(Qualifier::P1),
            10 => Ok(Qualifier::P0),
            _ => Err(Refusal::BadField),
        }
    }
}

impl Action {
    // Its value is any.
    pub fn fits(self) -> bool
        ensures { result ≡ action_fits self.output }
    {
        action_fits(self.output)
    }
}

impl Transition {
    fn fits(self, steps: usize, actions: usize) -> bool
        ensures { result ≡ transition_fits steps actions self.sources self.targets self.on self.off self.wait }
    {
        sets::is_apart(
            sets::joined(self.sources, self.targets),
            sets::beyond(steps),
        ) & sets::is_apart(sets::joined(self.on, self.off), no_signals(actions))
            & (self.wait <= LONGEST)
    }

    // The first of its three numbers.
    pub fn check(self, steps: usize, actions: usize) -> Result<(), Refusal>
        ensures { code_of result ≡ transition_code steps actions self.sources self.targets self.on self.off self.wait }
    {
        let apart = sets::is_apart(self.sources, self.targets);
        let differ = (self.sources != 0) & (self.targets != 0) & apart;
        refusals::unless(self.fits(steps, actions), Refusal::BadField)?;
        refusals::unless(differ, Refusal::BadSteps)?;
        refusals::unless(sets::is_apart(self.on, self.off), Refusal::BadSignals)
    }

    // Whether it has none of them, for a pass over many: the compiler joins the sets that must be empty, and makes vectors of the pass.
    pub fn passes(self, steps: usize, actions: usize) -> bool
        ensures { result ≡ eqb (transition_code steps actions self.sources self.targets self.on self.off self.wait) 0 }
    {
        self.fits(steps, actions)
            & sets::is_apart(self.on, self.off)
            & sets::is_apart(self.sources, self.targets)
            & (self.sources != 0)
            & (self.targets != 0)
    }
}

impl Block {
    pub fn fits(self, steps: usize, actions: usize) -> bool
        ensures { result ≡ block_fits steps actions self.step self.action self.qualifier self.duration }
    {
        ((self.step as usize) < steps)
            & ((self.action as usize) < actions)
            & (self.qualifier <= 10)
            & duration_fits(self.qualifier, self.duration)
    }
}

impl Case {
    pub fn fits(self, steps: usize, actions: usize) -> bool
        ensures { result ≡ case_fits steps actions self.step self.signal self.expected }
    {
        ((self.step as usize) < steps)
            & (self.signal < 64)
            & signal_exists(self.signal, actions)
            & (self.expected <= 1)
    }
}

// By comparisons: a `match` on the qualifier would be a jump for each block, and in a pass over many the compiler makes vectors of these.
pub fn is_timed(qualifier: u8) -> bool
    ensures { result ≡ timed qualifier }
{
    (3 <= qualifier) & (qualifier <= 8) & (qualifier != 5)
}

// A record's kind, after the kind before it: any numbers, as a file has them and C lends them.
pub fn kind_fits(kind: u16, before: u16) -> bool
    ensures { result ≡ kind_fits kind before }
{
    (kind <= 6) & ((kind == 0) | (before <= kind))
}

pub fn step_fits(initial: u8) -> bool
    ensures { result ≡ step_fits initial }
{
    initial <= 1
}

pub fn action_fits(output: u8) -> bool
    ensures { result ≡ action_fits output }
{
    output <= 31
}

// The signals that don't exist: the inputs are signals 0 to 31, and a set of signals names actions from its bit 32 on.
fn no_signals(actions: usize) -> u64
    ensures { result ≡ beyond (32 + actions) }
{
    if actions < 32 {
        return sets::beyond(32 + actions);
    }
    0
}

// Column by column, and not by `Block`, for the held test's pass. Two comparisons: of one with a limit that goes by the qualifier the compiler makes a branch.
pub fn duration_fits(qualifier: u8, duration: u32) -> bool
    ensures { result ≡ duration_fits qualifier duration }
{
    (duration <= LONGEST) & (is_timed(qualifier) | (duration == 0))
}

fn signal_exists(signal: u8, actions: usize) -> bool
    ensures { result ≡ signal_exists signal actions }
{
    if signal < 32 {
        return true;
    }
    ((signal - 32) as usize) < actions
}

// The edition of a held chart (document 02, request viii).
pub fn edition_fits(edition: u8) -> bool
    ensures { result ≡ edition_fits edition }
{
    (edition == 1) | (edition == 2)
}

// The byte that a file may have for it, and where the stepping differs.
pub fn is_second(edition: u8) -> bool
    ensures { result ≡ second edition }
{
    edition == 2
}
