// What the assessor signs: the tally and the weighing (document 01, "Tally").
#![tactic(auto)]

pub mod answer;
pub mod tallying;
pub mod weighing;

pub use answer::{Tally, Unweighed};
pub use tallying::tally;
pub use weighing::{weigh, weight_in};
