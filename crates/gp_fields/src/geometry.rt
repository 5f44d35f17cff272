// Meshes, their primitives, and the accessors that they name (glTF 2.0, sections 5.23 and 5.24).
ghost use Rattle.std.specs.Prelude.{◌≡◌};

use gp_tree::Lexeme;
use std::marker::Model;

/// A member of `attributes`, or of a morph target: a semantic and its accessor (glTF 2.0, section 3.7.2.1).
#[derive(Drop)]
pub struct Entry {
    /// The semantic, as its key is spelled.
    pub name: Lexeme,
    /// The number of the accessor, below the number of accessors.
    pub accessor: u32,
}

/// The members of `attributes` or of a morph target, in the order of the JSON.
#[derive(Drop)]
pub struct Entries {
    items: Vec<Entry>,
}

impl Model for Entries {
    ghost use Rattle.std.specs.Prelude.{List};
    ghost use Rattle.gp_fields.specs.declared.geometry.Entry.{Entry};

    ghost Value = { List Entry };

    ghost view = { λ list. list.items.items };
}

impl Entries {
    /// The list of these items. It takes no memory.
    pub fn from_vec(items: Vec<Entry>) -> Self
        ensures { result ≡ items.items }
    {
        Entries { items }
    }

    /// The items. It takes no memory.
    pub fn into_vec(self) -> Vec<Entry>
        ensures { result.items ≡ self }
    {
        self.items
    }

    /// The items, as a slice.
    pub fn as_slice(&self) -> &[Entry]
        ensures { result.now ≡ self.now }
    {
        self.items.as_slice()
    }
}

/// The morph targets of a primitive (glTF 2.0, section 3.7.2.2), in order.
#[derive(Drop)]
pub struct Targets {
    items: Vec<Entries>,
}

impl Model for Targets {
    ghost use Rattle.std.specs.Prelude.{List};
    ghost use Rattle.gp_fields.specs.declared.geometry.Entry.{Entry};

    ghost Value = { List (List Entry) };

    ghost view = { λ list. list.items.items };
}

impl Targets {
    /// The list of these items. It takes no memory.
    pub fn from_vec(items: Vec<Entries>) -> Self
        ensures { result ≡ items.items }
    {
        Targets { items }
    }

    /// The items. It takes no memory.
    pub fn into_vec(self) -> Vec<Entries>
        ensures { result.items ≡ self }
    {
        self.items
    }

    /// The items, as a slice.
    pub fn as_slice(&self) -> &[Entries]
        ensures { result.now ≡ self.now }
    {
        self.items.as_slice()
    }
}

/// A primitive (glTF 2.0, section 5.24) by its fields.
#[derive(Drop)]
pub struct PrimitiveFields {
    /// `mode`, its topology, known or not; 4, a list of triangles, where it is absent.
    pub mode: u32,
    /// The accessors of its vertices.
    pub attributes: Entries,
    /// Its morph targets; none where `targets` is absent.
    pub targets: Targets,
    /// The number of the accessor of its indices; `None` where it is absent.
    pub indices: Option<u32>,
}

/// A mesh (glTF 2.0, section 5.23) by its fields.
#[derive(Drop)]
pub struct MeshFields {
    /// Its primitives, in order; there may be none.
    pub primitives: Vec<PrimitiveFields>,
}

impl Model for MeshFields {
    ghost use Rattle.std.specs.Prelude.{List};
    ghost use Rattle.gp_fields.specs.declared.geometry.PrimitiveFields.{PrimitiveFields};

    ghost Value = { List PrimitiveFields };

    ghost view = { λ mesh. mesh.primitives.items };
}
