// Items of a list that stay, by their numbers.
ghost use Rattle.std.specs.Prelude.{◌≡◌, ℕ, Bool, IfOk, OnOk};
ghost use Rattle.gp_tree.specs.Plain.{plain, plain_trees, trees_of};
ghost use Rattle.gp_tree.specs.Find.{item_list};
ghost use Rattle.gp_tree.specs.TreeEdits.{with_items};
ghost use Rattle.gp_moves.specs.Items.{where_numbered};

use crate::items::is_list;
use gp_host::NoMemory;
use gp_tree::{Tree, Trees};
use std::alloc::Global;

/// A test of the numbers of items.
pub trait ItemTest {
    /// That test.
    ghost test: { Self → ℕ → Bool };

    /// Whether the number passes.
    fn passes(&self, at: usize) -> bool
        ensures { result ≡ test self.now at };
}

/// Leaves out the items of a list whose numbers don't pass. A tree that is no list stays as it is.
pub fn keep_items<T: ItemTest>(alloc: Global, tree: &mut Tree, test: &T) -> Result<(), NoMemory>
    ensures { OnOk result (plain tree.new ≡ with_items (where_numbered (T.test test.now)) (plain tree.old)) }
{
    if !is_list(tree) {
        return Ok(());
    }
    keep_in(alloc, tree.items_mut(), test)
}

fn keep_in<T: ItemTest>(alloc: Global, items: &mut Trees, test: &T) -> Result<(), NoMemory>
    ensures { OnOk result (plain_trees items.new
        ≡ trees_of (where_numbered (T.test test.now) (item_list (plain_trees items.old)))) }
{
    let all = std::mem::replace(items, Trees::from_vec(Vec::new(alloc))).into_vec();
    let kept = passing(alloc, all, test)?;
    *items = Trees::from_vec(kept);
    Ok(())
}

fn passing<T: ItemTest>(alloc: Global, all: Vec<Tree>, test: &T) -> Result<Vec<Tree>, NoMemory>
    ensures { IfOk result (λ kept. kept.items ≡ where_numbered (T.test test.now) all.items) }
{
    let mut kept = Vec::new(alloc);
    'items: for (at, item) in all.into_iter().enumerate() {
        if test.passes(at) {
            kept.push(item)?;
        }
    }
    Ok(kept)
}
