// The roles of bytes, as in the grammar (crates/grammar/specs/Grammar.antt). They are numbers, since the generated table has a byte for each state and the
// roles of sets and of qualifiers are counted from the first.
pub(crate) const FIRST: u8 = 1;

pub(crate) const DIGIT: u8 = 2;

// Into which set a name goes: sources, targets, inputs that are on, or off.
pub(crate) const SOURCE: u8 = 3;

pub(crate) const NOT_INPUT: u8 = 6;

pub(crate) const INITIAL: u8 = 7;

pub(crate) const STEP: u8 = 8;

pub(crate) const OWN: u8 = 9;

pub(crate) const ACTION: u8 = 10;

pub(crate) const TRANSITION: u8 = 11;

pub(crate) const NAMED: u8 = 12;

pub(crate) const ACTED: u8 = 13;

pub(crate) const PASSED: u8 = 14;

// Of the letter that ends qualifier 0.
pub(crate) const QUALIFIER: u8 = 16;
