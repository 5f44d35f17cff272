//! Edits of the JSON of an asset of glTF 2.0: where its bytes are, and that it uses EXT_meshopt_compression.
//!
//! Each call is equal to a definition of `specs/Edits.antt`; `specs/Common.antt` says what the trees of two assets have in
//! common that differ in no more than these edits.
//!
//! - `views`: the place and the extension object of a buffer view. - `each_view`: a change of each of them. -
//!   `buffers`: the list of buffers. - `names`: the lists of extensions. - `emptying`: members that an edit empties. -
//!   `laws`: what the edits keep. - `reading_back`,
//!   `packed_back`: what is read from a tree after them.
#![tactic(auto)]

mod buffers;
mod compression;
mod each_view;
mod emptying;
pub mod laws;
mod names;
pub mod packed_back;
pub mod reading_back;
#[cfg(test)]
mod tests;
mod views;

pub use buffers::set_buffers;
pub use compression::{Compression, compress_view};
pub use each_view::{ViewEdits, edit_views};
pub use names::{add_extension_names, remove_extension_names};
pub use views::{place_view, remove_compression};
