// The page that an assessor checks by hand (docs/DECISIONS.md, "The page of a weighing"), a line at a time.
#![tactic(auto)]

pub mod page;
pub mod sides;

pub use page::{Heard, LINE, LINES, Weighed, page_line};
