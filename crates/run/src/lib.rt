// The run as it is held, and the test of a held run against its chart (document 01, "Numbers of refusal").
#![tactic(auto)]

pub mod belongs;
pub mod lasting;
pub mod run;
pub mod tables;

pub use lasting::Lasting;
pub use run::Run;
pub use tables::{clear, fits, grow};
