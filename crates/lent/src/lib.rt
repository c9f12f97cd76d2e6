// A run that is lent to be advanced (document 01: "The bench holds one run and lends it to be advanced").
#![tactic(auto)]

pub mod advancing;

pub use advancing::{advance, lent_cycle};
