//! The binary container of glTF 2.0 and the buffers of its data URIs (glTF 2.0, GLB file format and section 3.6.1.1).
//!
//! `split` cuts a container into its chunks and copies nothing, `join` writes one, and `data_uri` decodes a buffer that stands in the JSON itself.
#![tactic(auto)]

mod chunks;
mod fault;
mod header;
mod joining;
pub mod laws;
mod next_chunk;
mod others;
mod splitting;
#[cfg(test)]
mod tests;
mod text;
mod uri_fault;
mod uris;

pub use chunks::Chunks;
pub use fault::GlbFault;
pub use joining::{join, total};
pub use splitting::split;
pub use uri_fault::UriFault;
pub use uris::data_uri;
