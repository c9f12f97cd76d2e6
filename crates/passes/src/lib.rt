// The passes of one cycle over a chart's tables, and what they go by: each by itself, for whatever it is given (document 01, "One cycle").
#![tactic(auto)]

pub mod asking;
pub mod choosing;
pub mod explaining;
pub mod moving;
pub mod outputs;
pub mod time;

pub use asking::ask_blocks;
pub use choosing::{choose, choose_from, steps_of};
pub use explaining::explain;
pub use moving::{marks_of, signals_of};
pub use outputs::write_outputs;
pub use time::{elapsed, step_time};
