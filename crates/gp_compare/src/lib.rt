//! Comparing what two assets draw, over plain lists: rows of records, lists of numbers, lists of triangles.
//!
//! [`number_records`] gives the records of two rows numbers, equal ones the same; [`same_vertices`] compares two lists of such numbers, and
//! [`same_triangles`] two lists of triangles whose corners are such numbers. [`laws`] says what that tells of the records.
#![tactic(auto)]

pub mod laws;
mod numbering;
#[cfg(test)]
mod tests;
mod triangles;
mod vertices;

pub use numbering::{Numbering, number_records};
pub use triangles::same_triangles;
pub use vertices::same_vertices;
