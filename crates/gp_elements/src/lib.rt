//! The elements of accessors of glTF 2.0 (sections 3.6.2 and 5.1).
//!
//! `Elements` is the list of an accessor's elements over the bytes of its buffer view, and `resolve` gives that of an accessor of an
//! asset, with the values of its `sparse` in place. They copy no element and take no memory. One element is sought among the
//! indices of a `sparse` by halves; going through all in order, each takes a few looks (`at_next`, `next_number`).
//!
//! - `slices`: so many slices of one size over bytes. - `numbers`: slices as numbers, and where one stands among them, with a
//!   count of those that were passed.
//! - `apart`: what a `sparse` gives apart. - `elements`, `resolving`: the elements of an accessor. - `laws`: what holds of
//!   the definitions alone.
#![tactic(auto)]

mod apart;
mod elements;
pub mod laws;
mod numbers;
mod resolving;
mod slices;
#[cfg(test)]
mod tests;

pub use elements::Elements;
pub use resolving::resolve;
