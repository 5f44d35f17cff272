//! Strips and fans of triangles as lists of triangles (glTF 2.0, section 3.7.2.1).
//!
//! [`lists`] takes a file of bytes and gives a GLB in which each strip or fan that can be a list is one, and whose views are all plain, or
//! the input's first fault (`specs/ListedDocument.antt`, `specs/Answers.antt`). [`triangles`] gives the list of triangles that stands for a
//! strip or a fan (`specs/Strips.antt`), and [`listed_triangles`] the one that is written for a primitive of an asset, if one is
//! (`specs/Listed.antt`). [`laws`] says what lists keep.
//!
//! - `files`: the call. - `corners`: lists of corners. - `vertices`: the vertices of strips and fans. - `listing`: the lists of primitives. -
//!   `bytes`: lists as bytes. - `making`: the lists of an asset. - `mesh_tables`: their accessors by mesh. - `editing`: the JSON. - `laws`: what
//!   the definitions promise.
#![tactic(auto)]

mod bytes;
mod corners;
mod editing;
mod files;
pub mod laws;
mod listing;
mod making;
mod mesh_tables;
#[cfg(test)]
mod tests;
mod vertices;

pub use corners::{fan_list, strip_list, triangles};
pub use files::{ListsOut, lists};
pub use listing::listed_triangles;
pub use vertices::listed_vertices;
