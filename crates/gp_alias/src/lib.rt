//! Groups of triangle primitives that share their vertices: which of them may move, which buffer views stay where they do, and
//! what a group holds (glTF 2.0, sections 3.7.2 and 5.24).
//!
//! [`groups`] gives the groups of an asset. Primitives are of one group where they share attribute or target accessors, by
//! whatever detours (`specs/Classes.antt`); a group says whether it may move, by the conditions of `specs/Movable.antt`.
//! [`survivors`] gives the new numbers of buffer views where groups move (`specs/Survivors.antt`), [`moved_accessors`] which accessors do. Of a group that may move
//! [`gather`] gives the records of its vertices, and [`corners`] its lists of vertices (`specs/Records.antt`). [`plain_list`] gives
//! the list of triangles that one primitive draws (`specs/Plain.antt`).
//!
//! Each takes a time that grows with what is given, and not with its square: uses and references are gone through once, and the
//! numbers in a list of indices are read only where no other group uses it. Elements are gone through in order, at a few looks
//! each where a `sparse` gives some. Records and lists take their memory once, as much as they need.
//!
//! - `forest`, `labelling`, `classing`: which primitives are of one group.
//! - `group`: what a group is. - `grouping`, `rising`: its primitives and accessors.
//! - `owning`, `usage`: which group alone uses an accessor. - `movable`, `moves`: whether a group may move.
//! - `all_groups`: all groups. - `moving`, `holding`, `surviving`: which views stay.
//! - `gathering`: elements and records. - `corner_lists`, `listing`, `plain`: lists. - `numbers`: counts as numbers.
//! - `laws`: what classes and groups have to do with each other.
#![tactic(auto)]

mod all_groups;
mod classing;
mod corner_lists;
mod forest;
mod gathering;
mod group;
mod grouping;
mod holding;
mod labelling;
pub mod laws;
mod listing;
mod movable;
mod moves;
mod moving;
mod numbers;
mod owning;
mod plain;
mod rising;
mod surviving;
#[cfg(test)]
mod tests;
mod usage;

pub use all_groups::groups;
pub use corner_lists::Corners;
pub use gathering::gather;
pub use group::{Group, Groups};
pub use listing::corners;
pub use moving::moved_accessors;
pub use plain::plain_list;
pub use surviving::survivors;
