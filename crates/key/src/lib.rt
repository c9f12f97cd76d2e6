// The hold key (document 02, request vii): the calls that set and clear a run's hold mark.
#![tactic(auto)]

pub mod turning;

pub use turning::{hold, release};
