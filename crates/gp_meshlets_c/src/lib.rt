//! Meshlets for callers in C: every slice is a pointer and then a length.
//!
//! C can promise no shapes, so the call tests them.
#![tactic(auto)]

mod cutting;

pub use cutting::{DONE, NO_MEMORY, NO_SHAPE, gp_meshlets_c_count};
