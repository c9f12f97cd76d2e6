// The run of a chart: what start and one cycle are (document 01, "One cycle"), and the tests before a cycle.
#![tactic(auto)]

pub mod calling;
pub mod cycling;

pub use calling::{Stopped, Went};
pub use cycling::{Cycle, ready};
