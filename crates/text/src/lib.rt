// Charts in the textual form (document 02, request iv); the grammar is docs/GRAMMAR.md's.
#![tactic(auto)]

pub mod closing;
pub mod pen;
pub mod reading;
mod roles;
pub mod saying;
pub mod states;
mod table;

pub use reading::read_text;
