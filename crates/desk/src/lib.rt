// The calls of documents 01 and 02 at the desk for programs in other languages, as a static library: a chart's file and its text, and what the assessor
// signs. As in `engine`, which has those at the rig, C's structs are lent as they lie, and each call answers the number of refusal.
#![tactic(auto)]

pub mod filing;
pub mod signing;
