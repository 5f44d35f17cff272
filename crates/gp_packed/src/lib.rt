//! What packing makes of a file, and how it reads back: the packed document as a function of a document and its asset, and what is
//! read of its fields, tree and buffer views (glTF 2.0, EXT_meshopt_compression).
//!
//! `specs/Packed.antt` has the packed document: each buffer view stored as `gp_storage` says, all of them in one buffer, and
//! views, accessors, primitives, buffers and names of extensions of the JSON edited to say so. `specs/MovedGroups.antt` says which
//! groups of triangle primitives move and in what order. Nothing here runs: the call is `gp_pack::pack`.
//!
//! - `accessors_back`, `new_numbers`, `meshes_back`, `packed_fields`: how the tree reads after the edits of groups that move.
//! - `sound_moved`: the tree stays sound. - `output_views`: which views the output has. - `common_moved`: what the trees have
//!   in common.
#![tactic(auto)]

pub mod accessors_back;
pub mod common_moved;
pub mod meshes_back;
pub mod new_numbers;
pub mod output_views;
pub mod packed_fields;
pub mod sound_moved;
