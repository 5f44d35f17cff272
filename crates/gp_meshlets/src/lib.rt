//! Meshlets: a list of triangles cut into runs that a graphics processor draws one at a time.
//!
//! [`build`] gives each run of the list its own vertices, at most 64, and its corners as places among them, at most 126 triangles; each
//! run is as long as it fits (`specs/Meshlets.antt`). [`laws`] says what meshlets keep of the list.
//!
//! [`meshlets`] takes a file of bytes, packed or not, and gives the text of the meshlets of each primitive of triangles, or the
//! input's first fault, which is the one that its analysis has (`specs/Text.antt`, `specs/Telling.antt`).
//!
//! No list is written out for the text: its runs are counted and then written, each from one growing meshlet. How many vertices an
//! accessor of indices takes is found once, however many primitives share it, so the time grows with the input and the text.
//!
//! - `meshlet`: the types. - `corners`: lists of triangles, wherever they stand. - `growth`: a meshlet on its way. - `building`: run
//!   after run. - `telling`: the text of an input. - `listing`: its lines. - `reading`: the list of a primitive. - `writing`: words
//!   and numbers. - `laws`: what the definitions promise.
#![tactic(auto)]

mod building;
mod corners;
mod growth;
pub mod laws;
mod listing;
mod meshlet;
mod places;
mod reading;
mod telling;
#[cfg(test)]
mod tests;
mod writing;

pub use building::build;
pub use meshlet::{Meshlet, Meshlets};
pub use telling::meshlets;
