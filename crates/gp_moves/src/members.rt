// A change of the value of a member.
ghost use Rattle.std.specs.Prelude.{◌≡◌, IsSome, OnOk};
ghost use Rattle.gp_tree.specs.Plain.{PlainTree, plain};
ghost use Rattle.gp_tree.specs.Find.{find_member};
ghost use Rattle.gp_tree.specs.TreeEdits.{at_member};
ghost use Rattle.gp_moves.specs.Items.{each_item};

use crate::items::{ItemEdits, edit_each};
use gp_host::NoMemory;
use gp_tree::Tree;
use std::alloc::Global;

/// A change of a tree.
pub trait TreeEdit {
    /// That change.
    ghost change: { Self → PlainTree → PlainTree };

    /// Makes the change in a tree.
    fn edit(&self, alloc: Global, tree: &mut Tree) -> Result<(), NoMemory>
        ensures { OnOk result (plain tree.new ≡ change self.now (plain tree.old)) };
}

/// Changes the value of the first member with this ASCII name. A tree without one stays as it is.
pub fn edit_member<E: TreeEdit>(
    alloc: Global,
    tree: &mut Tree,
    key: &str,
    edit: &E,
) -> Result<(), NoMemory>
    ensures { OnOk result (plain tree.new ≡ at_member key.now (E.change edit.now) (plain tree.old)) }
{
    if tree.find(key).is_none() {
        return Ok(());
    }
    edit_found(alloc, tree, key, edit)
}

fn edit_found<E: TreeEdit>(
    alloc: Global,
    tree: &mut Tree,
    key: &str,
    edit: &E,
) -> Result<(), NoMemory>
    requires { IsSome (find_member key.now (plain tree.old)) }
    ensures { OnOk result (plain tree.new ≡ at_member key.now (E.change edit.now) (plain tree.old)) }
{
    edit.edit(alloc, tree.members_mut().find_mut(key))
}

/// A change of each item of a list, as a change of that list.
#[derive(Drop)]
pub struct EachItem<'a, E> {
    /// The changes of the items.
    pub edits: &'a E,
}

impl<'a, E: ItemEdits> TreeEdit for EachItem<'a, E> {
    ghost use Rattle.gp_moves.specs.Items.{each_item};

    ghost change = { λ each. each_item (E.change each.edits.now) };

    fn edit(&self, alloc: Global, tree: &mut Tree) -> Result<(), NoMemory> {
        edit_each(alloc, tree, self.edits)
    }
}
