// The trace of a run (document 01, "The printed run").
#![tactic(auto)]

pub mod tracing;

pub use tracing::{Call, call_at};
