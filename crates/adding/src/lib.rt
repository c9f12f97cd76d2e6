// Adding weighings (document 02, request x): the sum of two, step by step, in a third lent list.
#![tactic(auto)]

pub mod adding;

pub use adding::{Unadded, add, add_steps};
