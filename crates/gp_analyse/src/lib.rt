//! Analyses of glTF assets as a text: what each primitive of triangles costs to draw, how many groups of them there are and how
//! many may move, and how many buffer views are stored as streams.
//!
//! [`analyse`] takes a file of bytes, packed or not, and gives the text or the input's first fault. `specs/Text.antt` has the text,
//! line by line; `specs/Reports.antt` says what an input's answer is, and [`laws`] that there is one.
//!
//! No list is written out for a primitive. What drawing all vertices in their order costs is computed; each accessor of indices is
//! gone through once, and once for each size of a vertex, and where it has no view, only what its `sparse` gives
//! (`specs/Costs.antt`).
//!
//! [`Known`] and [`index_list`] are for crates that go through the same lists for another text.
//!
//! - `analysing`: the call. - `reporting`: the text. - `measuring`: the line of a primitive. - `costing`: its costs.
//! - `known`: what was found of accessors of indices. - `drawing`: what drawing one takes. - `thinning`: its numbers.
//! - `writing`: words and numbers. - `laws`: what the definitions promise.
#![tactic(auto)]

mod analysing;
mod costing;
mod drawing;
mod known;
pub mod laws;
mod measuring;
mod reporting;
#[cfg(test)]
mod tests;
mod thinning;
mod writing;

pub use analysing::analyse;
pub use drawing::{Drawn, index_list};
pub use known::Known;
pub use thinning::IndexList;
