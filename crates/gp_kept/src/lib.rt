//! What packing keeps: a packed file is the same asset as its input, whichever groups of triangle primitives move.
//!
//! [`laws::packed_is_same`] is the law, over the definitions alone (`gp_sameness`, `gp_packed`); it knows nothing of the code that
//! packs. Below it stand the layers, each a law of its own.
//!
//! - `moved_groups`: which groups move, and that they can. - `made_laws`: what is read of the views that are made.
//! - `rules_moved`: the rules let the output through. - `elements_moved`: what its views contain, and the elements of its
//!   accessors. - `triangles_moved`: what primitives draw, and which vertices groups have. - `together`: the output is the same
//!   asset. - `laws`: what is promised of a whole file.
#![tactic(auto)]

pub mod elements_moved;
pub mod laws;
pub mod made_laws;
pub mod moved_groups;
pub mod rules_moved;
pub mod together;
pub mod triangles_moved;
