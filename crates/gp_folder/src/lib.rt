//! A folder of files that are taken and put whole, with what is known of it.
//!
//! [`Folder`] is the outside: what a take gives, what a put leaves, and when each of their refusals may come. [`MemoryFolder`]
//! tells all of this, and fails where it is told to; [`StdFolder`] stands on the files of the system.
#![tactic(auto)]

mod file;
mod folder;
mod memory_folder;
mod refusals;
mod std_folder;
#[cfg(test)]
mod tests;

pub use file::{File, FileList};
pub use folder::Folder;
pub use memory_folder::MemoryFolder;
pub use refusals::{PutRefusal, TakeRefusal};
pub use std_folder::StdFolder;
