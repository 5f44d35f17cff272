//! Varints and streams of indices of EXT_meshopt_compression (mode 2), and what its streams of triangles share with them.
//!
//! The decoder answers exactly what a stream means, or its first fault, and takes no memory. The encoder writes one stream for each
//! list of indices below 2^30, and that stream means the list.
#![tactic(auto)]

mod baselines;
mod decoding;
mod encoding;
mod in_use;
mod place;
#[cfg(test)]
mod tests;
mod varints;
mod zigzag;

pub use decoding::decode_sequence;
pub use encoding::encode_sequence;
pub use place::put_index;
pub use varints::{append_varint, read_varint, write_varint};
pub use zigzag::{unzigzag32, zigzag_difference};
