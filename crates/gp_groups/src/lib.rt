//! Groups of sixteen coded deltas, as EXT_meshopt_compression stores them, and the meaning of its streams.
#![tactic(auto)]

mod fault;
mod group;
#[cfg(test)]
mod tests;
mod written;
mod zigzag;

pub use fault::StreamFault;
pub use group::{decode_group, group_len};
pub use written::{best_mode, encode_group};
pub use zigzag::{unzigzag8, zigzag8};
