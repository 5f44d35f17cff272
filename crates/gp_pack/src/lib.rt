//! Packing of glTF assets: a file of bytes in, the packed GLB out (glTF 2.0, GLB file format).
//!
//! `pack` reads a GLB or a glTF text, and gives the packed GLB with the numbers of its views and streams, or the input's
//! first fault. Each buffer view is stored as `gp_storage` says, as a stream of EXT_meshopt_compression or plain, and all
//! of them stand in one buffer; views, buffers and names of extensions of the JSON are edited to say so
//! (`gp_packed`). In a group of triangle primitives that may move, equal vertices become one, and vertices and
//! triangles get a better order, in views of their own. What comes out is the same asset
//! (`gp_sameness`, the law `gp_kept::laws::packed_is_same`).
//!
//! - `packing`: the call. - `own_views`, `making`, `made`: what moves, and the views that are made for it. - `parts`: the bytes that
//!   stand for views. - `placing`: where they stand. - `editing`: the JSON of views. - `tables`, `mesh_tables`, `moving`: the JSON where
//!   groups move. - `table_laws`: what the tables for it hold.
#![tactic(auto)]

mod editing;
mod made;
mod making;
mod mesh_tables;
mod moving;
mod own_views;
mod packing;
mod parts;
mod placing;
pub mod table_laws;
mod tables;

pub use gp_document::Output as PackOut;
pub use packing::pack;
