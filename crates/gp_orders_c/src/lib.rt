//! The orders of records and triangles for callers in C: every slice is a pointer and then a length.
//!
//! C can promise no shapes, so each call tests them. The answer is 0 where the call is done, 1 where a size, a number or a length is
//! none that the call takes, and 2 for want of memory; after 1 and 2 the caller's memory is as it was.
#![tactic(auto)]

mod answers;
mod records;
mod triangles;

pub use answers::{DONE, NO_MEMORY, NO_SHAPE};
pub use records::gp_orders_c_merge;
pub use triangles::gp_orders_c_tipsify;
