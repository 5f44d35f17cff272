// Primitives that get the indices of their group (glTF 2.0, section 5.24).
ghost use Rattle.std.specs.Prelude.{◌≡◌, OnOk};
ghost use Rattle.gp_tree.specs.Plain.{plain};
ghost use Rattle.gp_moves.specs.MadeTrees.{list_at, list_in, given_list, with_list};

use crate::items::ItemEdits;
use crate::members::{EachItem, edit_member};
use gp_host::NoMemory;
use gp_tree::Tree;
use std::alloc::Global;
use std::marker::Model;

/// Of each primitive of a mesh the accessor that it gets for its indices where it has none, if it gets one.
#[derive(Drop)]
pub struct MeshLists {
    lists: Vec<Option<u32>>,
}

impl Model for MeshLists {
    ghost use Rattle.std.specs.Prelude.{List, Option, ℕ};

    ghost Value = { List (Option ℕ) };

    ghost view = { λ mesh. mesh.lists.items };
}

impl MeshLists {
    /// Those of a mesh. It takes no memory.
    pub fn from_vec(lists: Vec<Option<u32>>) -> Self
        ensures { result ≡ lists.items }
    {
        MeshLists { lists }
    }
}

// The accessor for a primitive of a mesh.
fn list_at(meshes: &[MeshLists], mesh: usize, at: usize) -> Option<u32>
    ensures { result ≡ list_at meshes.now mesh at }
{
    match meshes.get(mesh) {
        Some(found) => found.list(at),
        None => None,
    }
}

impl MeshLists {
    fn list(&self, at: usize) -> Option<u32>
        ensures { result ≡ list_in self.now at }
    {
        match self.lists.get(at) {
            Some(list) => *list,
            None => None,
        }
    }
}

// The primitives of a mesh.
#[derive(Drop)]
struct PrimitiveLists<'a> {
    meshes: &'a [MeshLists],
    mesh: usize,
}

impl<'a> ItemEdits for PrimitiveLists<'a> {
    ghost use Rattle.gp_moves.specs.MadeTrees.{list_at, with_list};

    ghost change = { λ edits at. with_list (list_at edits.meshes.now edits.mesh at) };

    fn edit(&self, alloc: Global, at: usize, item: &mut Tree) -> Result<(), NoMemory> {
        match list_at(self.meshes, self.mesh, at) {
            Some(number) => give_list(alloc, item, number),
            None => Ok(()),
        }
    }
}

// Gives a primitive without indices this accessor.
fn give_list(alloc: Global, primitive: &mut Tree, number: u32) -> Result<(), NoMemory>
    ensures { OnOk result (plain primitive.new ≡ given_list number (plain primitive.old)) }
{
    if primitive.find("indices").is_some() {
        return Ok(());
    }
    primitive.set(alloc, "indices", Tree::number(alloc, number as u64)?)
}

// The meshes.
#[derive(Drop)]
pub(crate) struct AllMeshLists<'a> {
    pub(crate) meshes: &'a [MeshLists],
}

impl<'a> ItemEdits for AllMeshLists<'a> {
    ghost use Rattle.gp_moves.specs.Edits.{mesh_lists};

    ghost change = { λ edits. mesh_lists edits.meshes.now };

    fn edit(&self, alloc: Global, at: usize, item: &mut Tree) -> Result<(), NoMemory> {
        let primitives = PrimitiveLists {
            meshes: self.meshes,
            mesh: at,
        };
        edit_member(alloc, item, "primitives", &EachItem { edits: &primitives })
    }
}
