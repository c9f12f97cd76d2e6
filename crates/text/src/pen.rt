// What is kept between two bytes, after one more.
ghost use Rattle.std.specs.Prelude.{◌≡◌, ◌<◌, ◌≤◌, ◌-◌};
ghost use Rattle.grammar.specs.Grammar.{SOURCE, NOT-INPUT};
ghost use Rattle.grammar.specs.Pen.{tens, settled, lined, penned, blank_pen};

use crate::roles::{
    ACTION, DIGIT, FIRST, INITIAL, NAMED, NOT_INPUT, OWN, PASSED, QUALIFIER, SOURCE, STEP,
    TRANSITION,
};

// A duration above the limit is refused, whatever it is, so the digits of a number stop one above it.
const CLIP: u32 = 86_400_001;

// The step and the block so far: the place of the step's name, whether it is initial, and its number; the action, and the qualifier.
#[derive(Clone, Copy)]
pub struct Line {
    pub place: usize,
    pub initial: u8,
    pub own: u32,
    pub action: u32,
    pub qualifier: u8,
}

// The number that is being read or was last; which of the sets the last name goes into, in which it is not yet, or 4; sources, targets, on, off and one
// that is never asked for.
#[derive(Clone, Copy)]
pub struct Pen {
    pub number: u32,
    pub kind: usize,
    pub sets: [u64; 5],
    pub line: Line,
    ghost clipped: { number ≤ 86400001 },
    ghost known: { kind < 5 },
}

impl Line {
    ghost use Rattle.text.specs.Answer.{line_of};

    fn take(&mut self, role: u8, n: u32, at: usize)
        ensures { line_of self.new ≡ lined (line_of self.old) role n at }
    {
        match role {
            INITIAL => self.initial = 1,
            STEP => self.initial = 0,
            OWN => self.place = at,
            NAMED => self.own = n,
            ACTION => {
                self.action = n;
                self.qualifier = 0;
            }
            QUALIFIER.. => self.qualifier = role % 16,
            _ => {}
        }
    }
}

impl Pen {
    ghost use Rattle.text.specs.Answer.{pen_of};
    ghost use Rattle.text.specs.Scan.{clip};

    // The number with one more digit.
    fn tens(n: u32, b: u8) -> u32
        requires { n ≤ 86400001 }
        ensures { result ≡ tens clip n b }
    {
        (n * 10 + (b % 16) as u32).min(CLIP)
    }

    pub(crate) fn new() -> Pen
        ensures { pen_of result ≡ blank_pen }
    {
        Pen {
            number: 0,
            kind: 4,
            sets: [0; 5],
            line: Line {
                place: 0,
                initial: 0,
                own: 0,
                action: 0,
                qualifier: 0,
            },
        }
    }

    // The last name into its set.
    fn join(&mut self)
        ensures { pen_of self.new ≡ record (pen_of self.old) { sets = settled (pen_of self.old) } }
    {
        let set = &mut self.sets[self.kind];
        *set = sets::with_if_mod(*set, self.number as usize, true);
    }

    // The sets with the last name.
    pub(crate) fn settled(&self) -> [u64; 5]
        ensures { result ≡ settled (pen_of self.now) }
    {
        let mut pen = *self;
        pen.join();
        pen.sets
    }

    // A name that goes into the set of a role, after the last one into its own.
    pub(crate) fn name(&mut self, role: u8)
        requires { (SOURCE ≤ role) × (role ≤ NOT-INPUT) }
        ensures { pen_of self.new ≡ record (pen_of self.old) { kind = role - SOURCE; sets = settled (pen_of self.old) } }
    {
        self.join();
        self.kind = role as usize - SOURCE as usize;
    }

    // A byte at a place in a role.
    pub(crate) fn take(&mut self, role: u8, at: usize, b: u8)
        ensures { pen_of self.new ≡ penned clip (pen_of self.old) role at b }
    {
        match role {
            FIRST => self.number = Pen::tens(0, b),
            DIGIT => self.number = Pen::tens(self.number, b),
            SOURCE..=NOT_INPUT => self.name(role),
            TRANSITION => {
                self.sets = [0; 5];
                self.kind = 4;
            }
            PASSED => self.join(),
            // Behind the bracket of an association comes a duration, or none.
            ACTION => {
                self.line.take(role, self.number, at);
                self.number = 0;
            }
            _ => self.line.take(role, self.number, at),
        }
    }
}
