//! One group of triangle primitives put into its new order: equal vertices as one, triangles in a better order, vertices in the order
//! of their first use; and the bytes of the buffer views that are made for it (glTF 2.0, section 3.7.2).
//!
//! [`move_group`] moves a group (`specs/MovedParts.antt` says what becomes of it). [`column_bytes`] and [`list_bytes`] give the bytes of
//! the views that are made for it (`specs/MadeBytes.antt`); [`laws`] says what a moved group keeps.
//!
//! - `moved`: what a moved group is. - `moving`: moving one. - `listing`: its lists in better orders. - `making`: bytes of views.
#![tactic(auto)]

pub mod laws;
mod listing;
mod making;
mod moved;
mod moving;
#[cfg(test)]
mod tests;

pub use making::{column_bytes, list_bytes};
pub use moved::MovedGroup;
pub use moving::move_group;
