//! Assets of glTF 2.0: buffers, buffer views, accessors, primitives, and who uses what.
//!
//! [`read_asset`] gives the asset that a JSON tree and a BIN chunk stand for, or its first fault. `specs/Asset.antt` says
//! what that asset is: the fields first, then the extensions in use, the bytes of buffers, buffer views, accessors, and
//! what they ask for together. An [`Asset`] borrows the BIN chunk and owns what data URIs hold.
//!
//! - `purpose`: what an asset is read for. - `refusal`: why a file is refused.
//! - `geometry`, `usage`: what an asset is made of, beside the buffer views and accessors of `gp_rules`.
//! - `extensions`; `buffers`, `needed`; `primitives`, `uses`: one step of reading each, and `reading` all of them, with
//!   those of `gp_rules`.
//! - `asset`, `contents`: the asset and the bytes of its views. - `numbers`: places as numbers.
#![tactic(auto)]

mod asset;
mod buffers;
mod contents;
mod extensions;
mod geometry;
mod needed;
mod numbers;
mod primitives;
mod purpose;
mod reading;
mod refusal;
#[cfg(test)]
mod tests;
mod usage;
mod uses;

pub use asset::Asset;
pub use contents::ViewBytes;
pub use geometry::Primitive;
pub use gp_fields::{Entries, Entry, Place, Targets};
pub use purpose::Form;
pub use reading::read_asset;
pub use refusal::Refusal;
pub use usage::{AccessorUse, Role};
