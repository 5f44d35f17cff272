//! JSON texts (RFC 8259), read as trees and printed: what is not edited comes back to the byte, but
//! for white space.
//!
//! [`read`] takes any list of bytes. It gives the one tree that the text spells, or the first fault
//! that the text has. [`print`] gives the compact text of a tree. Between the two a tree is looked
//! into and edited by the calls of `gp_tree`.
//!
//! `read` gives sound trees alone, and what a sound tree prints is read as that tree again.
#![tactic(auto)]

mod cursor;
mod fault;
pub mod laws;
mod lexing;
mod printing;
mod reading;
#[cfg(test)]
mod tests;

pub use fault::{JsonFault, JsonRefusal};
pub use printing::print;
pub use reading::read;
