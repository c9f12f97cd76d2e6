// The chart as it is held, the test of a chart that a caller held (document 01, "Numbers of refusal"), and its initial steps.
#![tactic(auto)]

pub mod chart;
pub mod held;
pub mod initial;

pub use chart::Chart;
