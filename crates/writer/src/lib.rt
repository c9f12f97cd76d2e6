// Charts written back: a held chart into lent bytes, in the form that the reader reads (document 02, request i).
#![tactic(auto)]

pub mod records;
pub mod writing;

pub use writing::write_chart;
