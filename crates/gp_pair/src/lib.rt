//! Files of glTF 2.0 whose buffers are in files of their own (section 3.6.1.1): [`bundle`] takes a text or a GLB from a folder
//! with the files that its buffers name, and joins them to one GLB; [`put_pair`] puts a GLB as a text and a file of its BIN chunk.
//!
//! Which buffers are external, and the files that they name, stand in `specs/Names.antt` and `specs/External.antt`; what they
//! are joined to in `specs/Joined.antt`; the order of refusals in `specs/Bundle.antt`; what a put leaves in `specs/Pair.antt`.
//!
//! - `names`: names that URIs spell. - `external`: the files of all buffers. - `taking`: files taken one after the other. -
//!   `joining`: their bytes in the document. - `bundling`, `bundled`, `refusal`: the call. - `container`: the parts of a
//!   container, however long its JSON is. - `pairing`: both files of a pair. - `text`: telling a text from a container.
#![tactic(auto)]

mod bundled;
mod bundling;
mod container;
mod external;
mod joining;
mod names;
mod pairing;
mod refusal;
mod taking;
#[cfg(test)]
mod tests;
mod text;

pub use bundled::Bundled;
pub use bundling::bundle;
pub use pairing::{put_pair, text_of};
pub use refusal::BundleRefusal;
