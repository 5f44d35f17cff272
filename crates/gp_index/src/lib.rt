//! Streams of triangles of EXT_meshopt_compression (mode 1).
//!
//! The decoder answers exactly what a stream means, or its first fault, and takes no memory. The encoder writes one stream for each
//! list of indices below 2^24, and that stream means the same triangles in the same order.
#![tactic(auto)]

mod auxiliary;
mod counters;
mod cursor;
mod decoder;
mod encoder;
pub mod laws;
mod place;
mod pushes;
#[cfg(test)]
mod tests;
mod written;

pub use decoder::decode_triangles;
pub use encoder::encode_triangles;
