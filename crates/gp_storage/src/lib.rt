//! How the buffer views of an asset are stored: as streams of EXT_meshopt_compression where that takes fewer bytes.
//!
//! [`store_views`] gives the stream of each view, or none where it stays plain; `specs/Coding.antt` says which stream a view
//! may be, and `specs/Streams.antt` which ones are kept. [`encode`] gives the stream of bytes whose coding is known.
//!
//! - `usage`: what accessors are used for. - `images`: which views hold images. - `shared`, `readers`: what the readers of
//!   each view have in common. - `choosing`: which stream a view may be. - `listing`: bytes as numbers. -
//!   `encoding`: the stream. - `storing`: all views.
//! - `coding`, `stored`: what is answered.
#![tactic(auto)]

mod choosing;
mod coding;
mod encoding;
mod images;
mod listing;
mod readers;
mod shared;
mod stored;
mod storing;
#[cfg(test)]
mod tests;
mod usage;

pub use coding::{Coding, Stream};
pub use encoding::encode;
pub use stored::StoredViews;
pub use storing::store_views;
