// An index of leaving transitions (document 02, request ix): for every step, the set of transitions that have it as a source.
#![tactic(auto)]

pub mod building;
pub mod consulting;

pub use building::{index_of, leaving_of};
pub use consulting::{check_index, consulted};
