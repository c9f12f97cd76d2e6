// A whole shift of cycles in one call (document 02, request iii).
#![tactic(auto)]

pub mod shifting;

pub use shifting::{check_lists, shift, shift_by};
