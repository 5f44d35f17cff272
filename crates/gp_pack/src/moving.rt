// The JSON of an asset in which groups move.
ghost use Rattle.std.specs.Prelude.{◌≡◌, List, OnOk};
ghost use Rattle.gp_tree.specs.Plain.{plain};
ghost use Rattle.gp_asset.specs.Asset.{AssetParts};
ghost use Rattle.gp_sameness.specs.Moved.{Moved};
ghost use Rattle.gp_sameness.specs.References.{with_new_references};
ghost use Rattle.gp_packed.specs.GroupEdits.{with_moved_accessors, with_list_accessors, with_all_indices};
ghost use Rattle.gp_packed.specs.Packed.{with_made_views};
ghost use Rattle.gp_pack.specs.MoveTables.{AreTables};

use gp_host::NoMemory;
use gp_moves::{AccessorMove, MadeList, MadeView, MeshLists, Moves, ViewNumbers};
use gp_tree::Tree;
use std::alloc::Global;

// What becomes of accessors, primitives and views.
#[derive(Drop)]
pub(crate) struct MoveTables {
    // Of each accessor.
    pub(crate) accessors: Vec<AccessorMove>,
    // The accessors that are made.
    pub(crate) lists: Vec<MadeList>,
    // Of each mesh the indices that its primitives get.
    pub(crate) meshes: Vec<MeshLists>,
    // The new number of each view, none of one that is dropped, and how many are.
    pub(crate) numbers: Vec<Option<u32>>,
    pub(crate) dropped: u32,
    // The views that are made.
    pub(crate) made: Vec<MadeView>,
}

// Edits the JSON of an asset in which groups move, before its views are placed.
pub(crate) fn edit_groups(
    alloc: Global,
    root: &mut Tree,
    tables: &MoveTables,
) -> Result<(), NoMemory>
    ensures { OnOk result ((moved : List Moved) (a : AssetParts) → AreTables moved a tables.now
        → plain root.new ≡ with_made_views moved a (with_new_references moved a (with_all_indices moved a
        (with_list_accessors moved a (with_moved_accessors moved a (plain root.old)))))) }
{
    let views = ViewNumbers {
        numbers: tables.numbers.as_slice(),
        dropped: tables.dropped,
    };
    let moves = Moves {
        accessors: tables.accessors.as_slice(),
        lists: tables.lists.as_slice(),
        meshes: tables.meshes.as_slice(),
        views,
        made: tables.made.as_slice(),
    };
    gp_moves::edit_groups(alloc, root, &moves)
}
