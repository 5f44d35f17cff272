// Items of a list, and the empty list and object.
ghost use Rattle.std.specs.Prelude.{◌≡◌, option_map};
ghost use Rattle.gp_tree.specs.Plain.{plain, list, members, no_items, no_members};
ghost use Rattle.gp_tree.specs.Look.{item, items_len};

use crate::tree::{Members, Tree, Trees};
use std::alloc::Global;

impl Tree {
    /// The item of a list at this place, counted from 0. `None` past the last, and of a tree that
    /// is no list.
    pub fn item(&self, at: usize) -> Option<&Tree>
        ensures { option_map (λ t. plain t.now) result ≡ item (plain self.now) at }
    {
        match self {
            Tree::List(items) => {
                if at < items.items.len() {
                    Some(&items.items[at])
                } else {
                    None
                }
            }
            _ => None,
        }
    }

    /// The number of items of a list, and 0 for other trees.
    pub fn len(&self) -> usize
        ensures { result ≡ items_len (plain self.now) }
    {
        match self {
            Tree::List(items) => items.items.len(),
            _ => 0,
        }
    }

    /// The empty list.
    pub fn list(alloc: Global) -> Tree
        ensures { plain result ≡ list no_items }
    {
        Tree::List(Trees::from_vec(Vec::new(alloc)))
    }

    /// The empty object.
    pub fn object(alloc: Global) -> Tree
        ensures { plain result ≡ members no_members }
    {
        Tree::Members(Members::from_vec(Vec::new(alloc)))
    }
}
