// The JSON of an asset in which strips and fans are lists of triangles (glTF 2.0, sections 5.11 and 5.24).
ghost use Rattle.std.specs.Prelude.{◌≡◌, Some, map, IfOk, OnOk};
ghost use Rattle.gp_tree.specs.Plain.{plain};
ghost use Rattle.gp_moves.specs.MadeTrees.{list_tree, list_at};
ghost use Rattle.gp_unpack.specs.Unpacked.{unpacked_views};
ghost use Rattle.gp_strips.specs.ListedTree.{with_accessors, as_triangles, with_primitives, view_tree, with_views};

use crate::making::MadeLists;
use crate::mesh_tables::{MeshNumbers, number_at};
use gp_host::NoMemory;
use gp_moves::{Appended, EachItem, ItemEdits, MadeList, Makes, append_all, edit_member};
use gp_tree::Tree;
use gp_unpack::{Contents, edit_unpacked};
use std::alloc::Global;

/// Where the corners of a list stand in the one buffer.
#[derive(Clone, Copy, Debug, PartialEq, Eq)]
pub struct ListView {
    /// The first byte.
    pub offset: u64,
    /// How many bytes there are.
    pub length: u64,
}

// ---- accessors

// The accessors of lists.
#[derive(Drop)]
struct ListAccessors<'a> {
    lists: &'a [MadeList],
}

impl<'a> Makes for ListAccessors<'a> {
    ghost use Rattle.std.specs.Prelude.{map};
    ghost use Rattle.gp_moves.specs.MadeTrees.{list_tree};

    ghost trees = { λ made. map list_tree made.lists.now };

    fn count(&self) -> usize {
        self.lists.len()
    }

    fn make(&self, alloc: Global, at: usize) -> Result<Tree, NoMemory> {
        make_accessor(alloc, self.lists[at])
    }
}

fn make_accessor(alloc: Global, list: MadeList) -> Result<Tree, NoMemory>
    ensures { IfOk result (λ made. plain made ≡ list_tree list) }
{
    let mut made = Tree::object(alloc);
    made.set(alloc, "bufferView", Tree::number(alloc, list.view as u64)?)?;
    made.set(
        alloc,
        "componentType",
        Tree::number(alloc, list.component as u64)?,
    )?;
    made.set(alloc, "count", Tree::number(alloc, list.count as u64)?)?;
    made.set(alloc, "type", Tree::text(alloc, "SCALAR")?)?;
    Ok(made)
}

// Puts the accessors of lists behind the others.
#[tactic(auto, unfolding(crate::specs::ListedTree::with_accessors))]
fn append_accessors(alloc: Global, root: &mut Tree, lists: &[MadeList]) -> Result<(), NoMemory>
    ensures { OnOk result (plain root.new ≡ with_accessors (map list_tree lists.now) (plain root.old)) }
{
    let makes = ListAccessors { lists };
    edit_member(alloc, root, "accessors", &Appended { makes: &makes })
}

// ---- views

// The views of lists.
#[derive(Drop)]
struct ListViews<'a> {
    views: &'a [ListView],
}

impl<'a> Makes for ListViews<'a> {
    ghost use Rattle.std.specs.Prelude.{map};
    ghost use Rattle.gp_strips.specs.ListedTree.{view_tree};

    ghost trees = { λ made. map view_tree made.views.now };

    fn count(&self) -> usize {
        self.views.len()
    }

    fn make(&self, alloc: Global, at: usize) -> Result<Tree, NoMemory> {
        make_view(alloc, self.views[at])
    }
}

fn make_view(alloc: Global, view: ListView) -> Result<Tree, NoMemory>
    ensures { IfOk result (λ made. plain made ≡ view_tree view) }
{
    let mut made = Tree::object(alloc);
    made.set(alloc, "buffer", Tree::number(alloc, 0)?)?;
    made.set(alloc, "byteOffset", Tree::number(alloc, view.offset)?)?;
    made.set(alloc, "byteLength", Tree::number(alloc, view.length)?)?;
    made.set(alloc, "target", Tree::number(alloc, 34963)?)?;
    Ok(made)
}

// Puts the views of lists behind the others. The list of views is made where it isn't there and some view is to be in it.
fn append_views(alloc: Global, root: &mut Tree, views: &[ListView]) -> Result<(), NoMemory>
    ensures { OnOk result (plain root.new ≡ with_views (map view_tree views.now) (plain root.old)) }
{
    if views.is_empty() {
        return Ok(());
    }
    let makes = ListViews { views };
    if root.find("bufferViews").is_none() {
        let mut made = Tree::list(alloc);
        append_all(alloc, &mut made, &makes)?;
        return root.set(alloc, "bufferViews", made);
    }
    edit_member(alloc, root, "bufferViews", &Appended { makes: &makes })
}

// ---- primitives

// The primitives of a mesh, by the accessors of the lists that they become.
#[derive(Drop)]
struct MeshPrimitives<'a> {
    meshes: &'a [MeshNumbers],
    mesh: usize,
}

impl<'a> ItemEdits for MeshPrimitives<'a> {
    ghost use Rattle.gp_moves.specs.MadeTrees.{list_at};
    ghost use Rattle.gp_strips.specs.ListedTree.{as_triangles};

    ghost change = { λ edits at. as_triangles (list_at edits.meshes.now edits.mesh at) };

    fn edit(&self, alloc: Global, at: usize, item: &mut Tree) -> Result<(), NoMemory> {
        match number_at(self.meshes, self.mesh, at) {
            Some(number) => draw_list(alloc, item, number),
            None => Ok(()),
        }
    }
}

// Makes a primitive a list of triangles.
fn draw_list(alloc: Global, primitive: &mut Tree, number: u32) -> Result<(), NoMemory>
    ensures { OnOk result (plain primitive.new ≡ as_triangles (Some number) (plain primitive.old)) }
{
    primitive.set(alloc, "mode", Tree::number(alloc, 4)?)?;
    primitive.set(alloc, "indices", Tree::number(alloc, number as u64)?)
}

// The meshes.
#[derive(Drop)]
struct Meshes<'a> {
    meshes: &'a [MeshNumbers],
}

impl<'a> ItemEdits for Meshes<'a> {
    ghost use Rattle.gp_moves.specs.MadeTrees.{list_at};
    ghost use Rattle.gp_strips.specs.ListedTree.{listed_mesh};

    ghost change = { λ edits. listed_mesh (list_at edits.meshes.now) };

    fn edit(&self, alloc: Global, at: usize, item: &mut Tree) -> Result<(), NoMemory> {
        let primitives = MeshPrimitives {
            meshes: self.meshes,
            mesh: at,
        };
        edit_member(alloc, item, "primitives", &EachItem { edits: &primitives })
    }
}

// Makes lists of triangles of the primitives that have an accessor for them.
#[tactic(auto, unfolding(crate::specs::ListedTree::with_primitives))]
fn list_primitives(alloc: Global, root: &mut Tree, meshes: &[MeshNumbers]) -> Result<(), NoMemory>
    ensures { OnOk result (plain root.new ≡ with_primitives (list_at meshes.now) (plain root.old)) }
{
    let meshes = Meshes { meshes };
    edit_member(alloc, root, "meshes", &EachItem { edits: &meshes })
}

// ---- all of them

/// Edits the JSON of an asset whose views have these contents, and whose strips and fans became these lists, but for its `buffers`.
pub(crate) fn edit_listed(
    alloc: Global,
    root: &mut Tree,
    contents: &Contents,
    lists: &MadeLists,
) -> Result<(), NoMemory>
    ensures { OnOk result (plain root.new ≡ with_views (map view_tree lists.now.row.views.items) (with_primitives (list_at lists.now.meshes.items)
        (with_accessors (map list_tree lists.now.row.accessors.items) (unpacked_views contents.now (plain root.old))))) }
{
    edit_unpacked(alloc, root, contents)?;
    append_accessors(alloc, root, lists.row.accessors.as_slice())?;
    list_primitives(alloc, root, lists.meshes.as_slice())?;
    append_views(alloc, root, lists.row.views.as_slice())
}
