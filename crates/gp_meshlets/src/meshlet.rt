// Meshlets, and lists of them.
ghost use Rattle.std.specs.Prelude.{◌≡◌};

use gp_host::Numbers;
use std::marker::Model;

/// A small piece of a list of triangles, with a list of vertices of its own.
#[derive(Drop)]
pub struct Meshlet {
    /// Its distinct vertices, in the order in which its corners name them first.
    pub vertices: Numbers,
    /// The places of its corners among the vertices, three a triangle.
    pub corners: Numbers,
}

/// The meshlets of a list of triangles, in order.
#[derive(Drop)]
pub struct Meshlets {
    items: Vec<Meshlet>,
}

impl Model for Meshlets {
    ghost use Rattle.std.specs.Prelude.{List};
    ghost use Rattle.gp_meshlets.specs.declared.meshlet.Meshlet.{Meshlet};

    ghost Value = { List Meshlet };

    ghost view = { λ list. list.items.items };
}

impl Meshlets {
    /// The list of these items. It takes no memory.
    pub fn from_vec(items: Vec<Meshlet>) -> Self
        ensures { result ≡ items.items }
    {
        Meshlets { items }
    }

    /// The items. It takes no memory.
    pub fn into_vec(self) -> Vec<Meshlet>
        ensures { result.items ≡ self }
    {
        self.items
    }

    /// The items, as a slice.
    pub fn as_slice(&self) -> &[Meshlet]
        ensures { result.now ≡ self.now }
    {
        self.items.as_slice()
    }
}
