// A change of each item of a list, by its number.
ghost use Rattle.std.specs.Prelude.{◌≡◌, ℕ, IsTrue, ◌↔◌, OnOk};
ghost use Rattle.gp_tree.specs.Plain.{PlainTree, plain, plain_trees, trees_of};
ghost use Rattle.gp_tree.specs.Find.{IsList, item_list};
ghost use Rattle.gp_moves.specs.Items.{each_item, changed_items};

use gp_host::NoMemory;
use gp_tree::{Tree, Trees};
use std::alloc::Global;

/// Changes of the items of a list, one for each number.
pub trait ItemEdits {
    /// The change of the item with a number.
    ghost change: { Self → ℕ → PlainTree → PlainTree };

    /// Changes the item with this number.
    fn edit(&self, alloc: Global, at: usize, item: &mut Tree) -> Result<(), NoMemory>
        ensures { OnOk result (plain item.new ≡ change self.now at (plain item.old)) };
}

/// Changes each item of a list by its number. A tree that is no list stays as it is.
pub fn edit_each<E: ItemEdits>(alloc: Global, tree: &mut Tree, edits: &E) -> Result<(), NoMemory>
    ensures { OnOk result (plain tree.new ≡ each_item (E.change edits.now) (plain tree.old)) }
{
    if !is_list(tree) {
        return Ok(());
    }
    edit_items(alloc, tree.items_mut(), edits)
}

pub(crate) fn is_list(tree: &Tree) -> bool
    ensures { IsTrue result ↔ IsList (plain tree.now) }
{
    match tree {
        Tree::List(_) => true,
        _ => false,
    }
}

fn edit_items<E: ItemEdits>(alloc: Global, items: &mut Trees, edits: &E) -> Result<(), NoMemory>
    ensures { OnOk result (plain_trees items.new
        ≡ trees_of (changed_items (E.change edits.now) (item_list (plain_trees items.old)))) }
{
    let count = items.as_slice().len();
    'items: for at in 0..count {
        edits.edit(alloc, at, items.item_mut(at))?;
    }
    Ok(())
}
