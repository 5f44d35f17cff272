//! Unpacking of glTF assets: every buffer view plain, those of compressed forms (EXT_meshopt_compression) decoded.
//!
//! [`unpack`] takes a file of bytes and gives a GLB with the contents of all views in one buffer, or the input's first
//! fault. [`decode_views`] gives the bytes of every view of an asset, or the first view whose stream has a fault;
//! [`edit_unpacked`] edits the JSON by them. [`laws`] says what unpacking keeps.
//!
//! - `contents`: the bytes of all views in one buffer, as [`gp_asset::ViewBytes`]. - `laying`: the part of the buffer for
//!   each view. - `decoding`: one stream, one view, all views. - `unpacking`: the call. - `editing`: the JSON. - `laws`:
//!   what the definitions promise.
#![tactic(auto)]

mod contents;
mod decoding;
mod editing;
pub mod laws;
mod laying;
#[cfg(test)]
mod tests;
mod unpacking;

pub use contents::Contents;
pub use decoding::decode_views;
pub use editing::edit_unpacked;
pub use gp_document::Output as UnpackOut;
pub use unpacking::unpack;
