//! Edits of the JSON of an asset of glTF 2.0 where groups of primitives move, and changes of lists and members that they are
//! made of.
//!
//! [`edit_groups`] makes all edits but the places of views (`specs/Edits.antt`), from tables of what becomes of accessors,
//! primitives and views. [`first_values`], [`group_entries`], [`written_accessors`] and [`placed_entries`] give what such tables
//! are made of (`specs/Firsts.antt`). Each takes a time that grows with what is given, and not with its square.
//!
//! - `items`, `appending`, `keeping`: changes of the items of a list. - `members`: a change of a member's value. - `accessors`:
//!   accessors that move. - `numbers`, `references`: new numbers of views. - `made`: accessors and views that are made. -
//!   `indices`: primitives that get indices. - `editing`: all of them. - `group_edit`: a group that moves. - `firsts`: the first
//!   group that has a number. - `written`: the accessors that get a view.
#![tactic(auto)]

mod accessors;
mod appending;
mod editing;
mod firsts;
mod group_edit;
mod indices;
mod items;
mod keeping;
mod made;
mod members;
mod numbers;
mod references;
#[cfg(test)]
mod tests;
mod written;

pub use accessors::AccessorMove;
pub use appending::{Appended, Makes, append_all};
pub use editing::{Moves, edit_groups};
pub use firsts::{Entry, first_values};
pub use group_edit::{GroupEdit, Part, group_entries};
pub use indices::MeshLists;
pub use items::{ItemEdits, edit_each};
pub use keeping::{ItemTest, keep_items};
pub use made::{MadeList, MadeView};
pub use members::{EachItem, TreeEdit, edit_member};
pub use numbers::ViewNumbers;
pub use written::{placed_entries, written_accessors};
