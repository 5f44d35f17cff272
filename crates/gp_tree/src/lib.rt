//! JSON values as trees that keep the order of members and the spelling of numbers and strings
//! (RFC 8259, sections 3 to 8): what is not edited stays to the byte.
//!
//! A [`Tree`] is looked into (`find`, `item`, `len`, `whole`, `ascii`, and at any place
//! `has_member`, `keys_under`, `has_distinct_keys`) and edited in place (`set`, `remove`,
//! `append`, `remove_item`, `item_mut`, `find_mut`). `gp_json` reads texts as trees, and prints
//! them.
//!
//! ```text
//! fn count_items(alloc: Global, tree: &mut Tree) -> Result<(), NoMemory> {
//!     let count = tree.find("items").map_or(0, Tree::len);
//!     let number = Tree::number(alloc, count as u64)?;
//!     tree.set(alloc, "count", number)
//! }
//! ```
//!
//! makes `{"items":[1.0,2]}` into `{"items":[1.0,2],"count":2}`.
//!
//! Contracts speak of the value that a tree stands for, `plain`; `IsSound` says that numbers,
//! strings and keys are spelled as the RFC allows, that no object has two equal keys, and that at
//! most 128 lists and objects stand in each other. [`laws`] says which edits keep a tree sound, and
//! what else they keep.
#![tactic(auto)]

mod anywhere;
mod edit;
mod find;
mod key;
mod keys;
pub mod laws;
mod lend;
mod lexeme;
mod look;
mod nested;
mod tree;
mod units;
mod value;

pub use key::{key_is, same_key};
pub use lexeme::Lexeme;
pub use tree::{Member, Members, Tree, Trees};
