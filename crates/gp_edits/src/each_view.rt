// A change of each buffer view (glTF 2.0, section 5.11).
ghost use Rattle.std.specs.Prelude.{◌≡◌, ◌<◌, List, length, slice_get, codes, IfSome, IsTrue, ◌↔◌, OnOk, OnErr};
ghost use Rattle.gp_tree.specs.Plain.{PlainTree, plain, plain_trees, trees_of};
ghost use Rattle.gp_tree.specs.Find.{item_list, find_member};
ghost use Rattle.gp_tree.specs.TreeEdits.{at_member, with_items};
ghost use Rattle.gp_edits.specs.Changes.{change_each, applied, IsListIn};
ghost use Rattle.gp_edits.specs.InPart.{IsViewEditedInPart, AreViewsEditedInPart};

use gp_host::NoMemory;
use gp_tree::{Tree, Trees};
use std::alloc::Global;

/// Changes of the buffer views of an asset's JSON, one for each view by its number.
pub trait ViewEdits {
    /// Those changes.
    ghost edits: { Self → List (PlainTree → PlainTree) };

    /// Makes change `at` in a view. After `Err` the view has all its members as before but `buffer`, `byteOffset` and
    /// `extensions`.
    fn edit(&self, alloc: Global, at: usize, view: &mut Tree) -> Result<(), NoMemory>
        requires { at < length (edits self.now) }
        ensures changed { OnOk result (IfSome (slice_get (edits self.now) at) (λ change. plain view.new ≡ change (plain view.old))) }
        ensures others { OnErr result (IsViewEditedInPart (plain view.old) (plain view.new)) };
}

/// Makes the first `count` changes, all there are, each in the view with its number; views past them stay, and so does an
/// asset without views. After `Err` all members but `bufferViews` are as before.
pub fn edit_views<E: ViewEdits>(
    alloc: Global,
    root: &mut Tree,
    edits: &E,
    count: usize,
) -> Result<(), NoMemory>
    requires { length (E.edits edits.now) ≡ count }
    ensures changed { OnOk result (plain root.new ≡ at_member (codes "bufferViews")
        (with_items (change_each applied (E.edits edits.now))) (plain root.old)) }
    ensures others { OnErr result (AreViewsEditedInPart (plain root.old) (plain root.new)) }
{
    if !has_list(root, "bufferViews") {
        return Ok(());
    }
    let views = root.members_mut().find_mut("bufferViews").items_mut();
    edit_items(alloc, views, edits, count)
}

// Whether a member of this name is a list.
fn has_list(root: &Tree, name: &str) -> bool
    ensures { IsTrue result ↔ IsListIn (find_member name.now (plain root.now)) }
{
    match root.find(name) {
        Some(Tree::List(_)) => true,
        _ => false,
    }
}

// Makes the changes in the items of a list.
fn edit_items<E: ViewEdits>(
    alloc: Global,
    views: &mut Trees,
    edits: &E,
    count: usize,
) -> Result<(), NoMemory>
    requires { length (E.edits edits.now) ≡ count }
    ensures { OnOk result (plain_trees views.new ≡ trees_of (change_each applied (E.edits edits.now) (item_list (plain_trees views.old)))) }
{
    let most = count.min(views.as_slice().len());
    'views: for at in 0..most {
        edits.edit(alloc, at, views.item_mut(at))?;
    }
    Ok(())
}
