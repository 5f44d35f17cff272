//! The bytes of buffer views in a row: one buffer of glTF 2.0 in which each view begins at the next multiple of 4.
//!
//! [`lay`] gives the row and the place of each view in it; `specs/Layout.antt` says what a row is.
#![tactic(auto)]

pub mod laws;
mod row;
#[cfg(test)]
mod tests;

pub use row::{Row, lay};
