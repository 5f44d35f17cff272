// The JSON of an asset where groups of primitives move (glTF 2.0, section 5.17).
ghost use Rattle.std.specs.Prelude.{◌≡◌, OnOk};
ghost use Rattle.gp_tree.specs.Plain.{plain};
ghost use Rattle.gp_moves.specs.Edits.{accessors_moved, lists_appended, primitives_listed, references_renumbered, views_made, groups_moved};

use crate::accessors::{AccessorMove, MovedAccessors};
use crate::appending::{Appended, append_all};
use crate::indices::{AllMeshLists, MeshLists};
use crate::keeping::keep_items;
use crate::made::{MadeList, MadeLists, MadeView, MadeViews};
use crate::members::{EachItem, TreeEdit, edit_member};
use crate::numbers::ViewNumbers;
use crate::references::{AccessorReferences, ImageReferences};
use gp_host::NoMemory;
use gp_tree::Tree;
use std::alloc::Global;

/// What becomes of the accessors, primitives and views of an asset where groups move.
#[derive(Drop)]
pub struct Moves<'a> {
    /// Of each accessor.
    pub accessors: &'a [AccessorMove],
    /// The accessors that are made.
    pub lists: &'a [MadeList],
    /// Of each mesh the indices that its primitives get.
    pub meshes: &'a [MeshLists],
    /// The new numbers of the views.
    pub views: ViewNumbers<'a>,
    /// The views that are made.
    pub made: &'a [MadeView],
}

/// Edits the JSON of an asset in which groups move.
#[tactic(auto, unfolding(crate::specs::Edits::groups_moved))]
pub fn edit_groups(alloc: Global, root: &mut Tree, moves: &Moves<'_>) -> Result<(), NoMemory>
    ensures { OnOk result (plain root.new ≡ groups_moved moves.now.accessors.now moves.now.lists.now moves.now.meshes.now
        moves.now.views.numbers.now moves.now.views.dropped moves.now.made.now (plain root.old)) }
{
    move_accessors(alloc, root, moves.accessors)?;
    append_lists(alloc, root, moves.lists)?;
    list_primitives(alloc, root, moves.meshes)?;
    renumber_references(alloc, root, moves.accessors, moves.views)?;
    make_views(alloc, root, moves.views, moves.made)
}

/// Changes each accessor as it moves.
#[tactic(auto, unfolding(crate::specs::Edits::accessors_moved))]
pub fn move_accessors(
    alloc: Global,
    root: &mut Tree,
    moves: &[AccessorMove],
) -> Result<(), NoMemory>
    ensures { OnOk result (plain root.new ≡ accessors_moved moves.now (plain root.old)) }
{
    let edits = MovedAccessors { moves };
    edit_member(alloc, root, "accessors", &EachItem { edits: &edits })
}

/// Puts the accessors that are made behind the others.
#[tactic(auto, unfolding(crate::specs::Edits::lists_appended))]
pub fn append_lists(alloc: Global, root: &mut Tree, lists: &[MadeList]) -> Result<(), NoMemory>
    ensures { OnOk result (plain root.new ≡ lists_appended lists.now (plain root.old)) }
{
    let makes = MadeLists { lists };
    edit_member(alloc, root, "accessors", &Appended { makes: &makes })
}

/// Gives indices to the primitives without them that get some.
#[tactic(auto, unfolding(crate::specs::Edits::primitives_listed))]
pub fn list_primitives(alloc: Global, root: &mut Tree, meshes: &[MeshLists]) -> Result<(), NoMemory>
    ensures { OnOk result (plain root.new ≡ primitives_listed meshes.now (plain root.old)) }
{
    let edits = AllMeshLists { meshes };
    edit_member(alloc, root, "meshes", &EachItem { edits: &edits })
}

/// Gives the references of accessors that stay, and of images, the new numbers of their views.
#[tactic(auto, unfolding(crate::specs::Edits::references_renumbered))]
pub fn renumber_references(
    alloc: Global,
    root: &mut Tree,
    moves: &[AccessorMove],
    views: ViewNumbers<'_>,
) -> Result<(), NoMemory>
    ensures { OnOk result (plain root.new ≡ references_renumbered moves.now views.entry.numbers.now views.entry.dropped (plain root.old)) }
{
    let accessors = AccessorReferences { moves, views };
    edit_member(alloc, root, "accessors", &EachItem { edits: &accessors })?;
    let images = ImageReferences { views };
    edit_member(alloc, root, "images", &EachItem { edits: &images })
}

// The views that stay, and then those that are made.
#[derive(Drop)]
struct OutputViews<'a> {
    views: ViewNumbers<'a>,
    made: &'a [MadeView],
}

impl<'a> TreeEdit for OutputViews<'a> {
    ghost use Rattle.gp_moves.specs.Edits.{views_of_output};

    ghost change = { λ edit. views_of_output edit.views.numbers.now edit.views.dropped edit.made.now };

    fn edit(&self, alloc: Global, tree: &mut Tree) -> Result<(), NoMemory> {
        keep_items(alloc, tree, &self.views)?;
        append_all(alloc, tree, &MadeViews { views: self.made })
    }
}

/// Leaves out the views that are dropped, and puts those that are made behind the others.
#[tactic(auto, unfolding(crate::specs::Edits::views_made))]
pub fn make_views(
    alloc: Global,
    root: &mut Tree,
    views: ViewNumbers<'_>,
    made: &[MadeView],
) -> Result<(), NoMemory>
    ensures { OnOk result (plain root.new ≡ views_made views.entry.numbers.now views.entry.dropped made.now (plain root.old)) }
{
    edit_member(alloc, root, "bufferViews", &OutputViews { views, made })
}
