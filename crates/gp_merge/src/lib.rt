//! Merging of equal records, the order of first sight, moving of records, and renumbering.
//!
//! Vertices of a mesh are records of one size in a row of bytes. [`merge`] gives each record its place among the distinct ones, and
//! [`keep_first`] brings these to the front. [`first_seen`] gives each vertex its place in the order in which lists name them,
//! [`move_records`] brings records to their new places, and [`renumber`] writes new numbers into lists.
#![tactic(auto)]

mod keyed;
pub mod laws;
mod merging;
mod moving;
mod ordering;
mod renumbering;
mod searching;
#[cfg(test)]
mod tests;

pub use merging::{Remap, keep_first, merge};
pub use moving::move_records;
pub use ordering::first_seen;
pub use renumbering::renumber;
