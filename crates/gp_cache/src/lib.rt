//! Orders of triangles that use a cache of vertices well.
//!
//! [`misses`] and [`lines`] count what a list of corners misses in a cache of 16 vertices or lines (`specs/Misses.antt`).
//! [`tipsify`] gives an order with few misses, and [`better_order`] takes it where it has fewer (`specs/Tipsify.antt`);
//! [`laws`] says what these orders keep.
//!
//! - `recency`: the cache. - `counting`: the two counts. - `adjoining`: the triangles round each vertex. - `stamping`: when vertices
//!   entered the cache. - `emitting`: fans. - `choosing`: the vertex of the next fan. - `compacting`: a list's own vertices. -
//!   `ordering`: the orders.
#![tactic(auto)]

mod adjoining;
mod choosing;
mod compacting;
mod counting;
mod emitting;
pub mod laws;
mod ordering;
mod recency;
mod stamping;
#[cfg(test)]
mod tests;

pub use counting::{lines, misses};
pub use ordering::{better_order, tipsify};
