//! Files of glTF 2.0, and operations on them: a file in, another file out, or the first fault.
//!
//! [`accept`] reads a GLB or a glTF text, and the asset that it stands for. [`write_document`] writes a tree with the bytes
//! of its buffer as a GLB. What an operation is, which first fault an input has under it, and what its answer is stand in
//! `specs/Operation.antt`, `specs/Faults.antt` and `specs/Answers.antt`; [`laws`] says that there is one answer.
//!
//! - `document`, `accepting`: what is read. - `writing`, `output`: what is written. - `laws`: what the definitions
//!   promise.
#![tactic(auto)]

mod accepting;
mod document;
pub mod laws;
mod output;
mod writing;

pub use accepting::{Accepted, accept};
pub use document::{Document, read_document};
pub use output::Output;
pub use writing::write_document;
