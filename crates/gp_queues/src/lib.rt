//! The queues of the sixteen latest edges and vertices of a triangle stream (EXT_meshopt_compression, mode 1).
//!
//! Callers see each queue as the list of its items, newest first, and never how it is kept.
#![tactic(auto)]

mod edges;
#[cfg(test)]
mod tests;
mod vertices;

pub use edges::EdgeQueue;
pub use vertices::VertexQueue;
