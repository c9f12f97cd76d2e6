// The chart reader: bytes to records to a chart (document 01, "The chart and its bytes").
#![tactic(auto)]

pub mod bodies;
pub mod framing;
pub mod numbers;
pub mod reading;

pub use framing::{Fault, Record, record_at};
pub use reading::{read_chart, read_into};
