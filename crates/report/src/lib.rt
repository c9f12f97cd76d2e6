// The printed run, a call's lines at a time (document 01, "The printed run"; document 02, request vi).
#![tactic(auto)]

pub mod printing;
pub mod wording;

pub use printing::{Standing, opening, print_next};
