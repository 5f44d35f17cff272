// Primitives of meshes.
use gp_fields::{Entries, Targets};

/// A primitive of a mesh (glTF 2.0, section 5.24).
#[derive(Drop)]
pub struct Primitive {
    /// The number of its mesh.
    pub mesh: u32,
    /// Its place in that mesh, counted from 0.
    pub at: u32,
    /// Its topology; 4 is a list of triangles.
    pub mode: u32,
    /// The accessors of its vertices.
    pub attributes: Entries,
    /// Its morph targets.
    pub targets: Targets,
    /// The number of the accessor of its indices.
    pub indices: Option<u32>,
}
