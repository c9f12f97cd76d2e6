// Paragraphs 1 to 6 of "One cycle" where the run lies, and one cycle after the other.
#![tactic(auto)]

pub mod calling;
pub mod stepping;

pub use calling::cycles_on;
pub use stepping::settle;
