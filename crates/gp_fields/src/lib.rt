//! The fields of glTF 2.0 assets that tell of buffers, buffer views, accessors, meshes, skins, animations and images.
//!
//! [`read_fields`] gives what the table of fields says of a JSON value, or the first member and item of another shape.
//! What the fields say is kept as it stands in the JSON, whether it is known or not: a component by its number, the
//! type of an element, a mode and a filter by their spelling.
//!
//! - `fault`: places and refusals. - `reading`: members of an object by their shapes. - `buffer_fields`, `view_fields`,
//!   `accessor_fields`, `sparse_fields`, `geometry`, `attribute_fields`, `mesh_fields`, `sampling`: one kind of item
//!   each. - `arrays`, `root`, `names`: the members of the root. - `whole`: all of them.
#![tactic(auto)]

mod accessor_fields;
mod arrays;
mod attribute_fields;
mod buffer_fields;
mod fault;
mod geometry;
mod mesh_fields;
mod names;
mod reading;
mod root;
mod sampling;
mod shapes;
mod sparse_fields;
#[cfg(test)]
mod tests;
mod view_fields;
mod whole;

pub use accessor_fields::AccessorFields;
pub use buffer_fields::BufferFields;
pub use fault::{FieldFault, FieldRefusal, Place};
pub use geometry::{Entries, Entry, MeshFields, PrimitiveFields, Targets};
pub use reading::as_text;
pub use sampling::{AnimationFields, SamplerFields};
pub use sparse_fields::{SparseFields, SparseIndicesFields, SparseValuesFields};
pub use view_fields::{PackedFields, ViewFields};
pub use whole::{AssetFields, read_fields};
