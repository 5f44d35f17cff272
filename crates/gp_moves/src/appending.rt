// New items behind those of a list.
ghost use Rattle.std.specs.Prelude.{◌≡◌, ◌<◌, List, length, slice_get, Some, IfOk, OnOk};
ghost use Rattle.gp_tree.specs.Plain.{PlainTree, plain};
ghost use Rattle.gp_tree.specs.TreeEdits.{and_items};

use crate::members::TreeEdit;
use gp_host::NoMemory;
use gp_tree::Tree;
use std::alloc::Global;

/// Trees that are made, one after the other.
pub trait Makes {
    /// Those trees.
    ghost trees: { Self → List PlainTree };

    /// How many there are.
    fn count(&self) -> usize
        ensures { result ≡ length (trees self.now) };

    /// Makes the tree with this number.
    fn make(&self, alloc: Global, at: usize) -> Result<Tree, NoMemory>
        requires { at < length (trees self.now) }
        ensures { IfOk result (λ made. slice_get (trees self.now) at ≡ Some (plain made)) };
}

/// Puts all these trees at the end of a list. A tree that is no list stays as it is.
pub fn append_all<M: Makes>(alloc: Global, tree: &mut Tree, makes: &M) -> Result<(), NoMemory>
    ensures { OnOk result (plain tree.new ≡ and_items (M.trees makes.now) (plain tree.old)) }
{
    let count = makes.count();
    'trees: for at in 0..count {
        let made = makes.make(alloc, at)?;
        tree.append(made)?;
    }
    Ok(())
}

/// All these trees at the end of a list, as a change of that list.
#[derive(Drop)]
pub struct Appended<'a, M> {
    /// The trees.
    pub makes: &'a M,
}

impl<'a, M: Makes> TreeEdit for Appended<'a, M> {
    ghost use Rattle.gp_tree.specs.TreeEdits.{and_items};

    ghost change = { λ appended. and_items (M.trees appended.makes.now) };

    fn edit(&self, alloc: Global, tree: &mut Tree) -> Result<(), NoMemory> {
        append_all(alloc, tree, self.makes)
    }
}
