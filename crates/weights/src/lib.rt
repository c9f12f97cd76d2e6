// Weights as text, one a line (docs/DECISIONS.md, "The page of a weighing").
#![tactic(auto)]

pub mod listing;
pub mod words;

pub use listing::{Listed, list};
pub use words::{Unreadable, says};
