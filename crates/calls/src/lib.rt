// A single call: start, and one cycle (document 01, "One cycle").
#![tactic(auto)]

pub mod cycling;
pub mod starting;

pub use cycling::{cycle, cycle_by};
pub use starting::start;
