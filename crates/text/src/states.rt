// The reader's table: a state and a byte give the next state, and a state the role in which it is reached.
ghost use Rattle.std.specs.Prelude.{◌≡◌, ◌<◌};
ghost use Rattle.text.specs.Codes.{columns, nexts};
ghost use Rattle.text.specs.Scan.{next_of, role_of, is_final};

use crate::table::{COLUMNS, NEXTS, ROLES};

// The states' numbers are the generated table's (tools/text_table): those that are reached in no role come before this one, those reached by a number's
// first digit before the next, those by another digit before the third, and those by a name that goes into a set before the fourth.
pub(crate) const SILENT: usize = 95;

pub(crate) const FIRSTS: usize = 124;

pub(crate) const DIGITS: usize = 134;

pub(crate) const NAMES: usize = 142;

// Where the reader stops.
pub(crate) const STOP: usize = 161;

// The tables that lead from state to state, lent: so a loop has their addresses in registers, and makes those of statics anew at each byte.
#[derive(Clone, Copy)]
pub struct Tables<'a> {
    pub columns: &'a [u16; 256],
    pub nexts: &'a [u8; 8609],
}

impl<'a> Tables<'a> {
    pub(crate) fn new() -> Tables<'a>
        ensures { (result.columns.now ≡ columns) × (result.nexts.now ≡ nexts) }
    {
        Tables {
            columns: &COLUMNS,
            nexts: &NEXTS,
        }
    }

    // A column begins at a multiple of 256.
    pub(crate) fn next_of(&self, state: usize, b: u8) -> usize
        requires { (self.now.columns.now ≡ columns) × (self.now.nexts.now ≡ nexts) × (state < 161) }
        ensures { result ≡ next_of state b }
    {
        self.nexts[self.columns[b as usize] as usize | state] as usize
    }
}

pub(crate) fn role_of(state: usize) -> u8
    requires { state < 161 }
    ensures { result ≡ role_of state }
{
    ROLES[state]
}

pub(crate) fn is_final(state: usize) -> bool
    ensures { result ≡ is_final state }
{
    matches!(state, 33 | 36 | 93 | 94)
}
