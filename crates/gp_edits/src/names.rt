// The names of the extensions that an asset uses (glTF 2.0, section 3.12).
ghost use Rattle.std.specs.Prelude.{◌≡◌, ◌↔◌, IsTrue, IsSome, not, filter, OnOk, OnErr, ◌∷◌, []};
ghost use Rattle.gp_tree.specs.Plain.{plain, plain_trees, trees_of, list, no_items};
ghost use Rattle.gp_tree.specs.Find.{IsList, find_member, item_list};
ghost use Rattle.gp_tree.specs.TreeEdits.{at_member, with_member, and_items};
ghost use Rattle.gp_edits.specs.Changes.{is_text_named, without_text};
ghost use Rattle.gp_edits.specs.InPart.{IsNamedInPart};
ghost use Rattle.gp_edits.specs.Edits.{extension_name, without_name_in, without_extension_named, with_name_in, with_extension_named};

use crate::emptying::{is_empty_member, remove_emptied};
use gp_host::NoMemory;
use gp_tree::{Tree, Trees, key_is};
use std::alloc::Global;

/// Takes the name of the extension out of both lists, at every place, and a list that this empties.
#[tactic(auto, unfolding(crate::specs::Edits::without_extension_named))]
pub fn remove_extension_names(alloc: Global, root: &mut Tree)
    ensures { plain root.new ≡ without_extension_named (plain root.old) }
{
    remove_name_in(alloc, root, "extensionsUsed");
    remove_name_in(alloc, root, "extensionsRequired");
}

// Takes the name out of one of the lists, and the list where this empties it.
fn remove_name_in(alloc: Global, root: &mut Tree, key: &str)
    ensures { plain root.new ≡ without_name_in key.now (plain root.old) }
{
    if root.find(key).is_none() {
        return;
    }
    let was_empty = is_empty_member(root, key);
    remove_from_member(alloc, root, key);
    remove_emptied(root, key, was_empty);
}

// Takes the name out of the list that a member holds.
fn remove_from_member(alloc: Global, root: &mut Tree, key: &str)
    requires { IsSome (find_member key.now (plain root.old)) }
    ensures { plain root.new ≡ at_member key.now (without_text extension_name) (plain root.old) }
{
    remove_from_list(alloc, root.members_mut().find_mut(key));
}

// Takes the name out of a list. Another value stays as it is.
fn remove_from_list(alloc: Global, list: &mut Tree)
    ensures { plain list.new ≡ without_text extension_name (plain list.old) }
{
    if is_list(list) {
        remove_from_items(alloc, list.items_mut());
    }
}

fn is_list(tree: &Tree) -> bool
    ensures { IsTrue result ↔ IsList (plain tree.now) }
{
    match tree {
        Tree::List(_) => true,
        _ => false,
    }
}

// Takes the name out of the items of a list, in one pass.
fn remove_from_items(alloc: Global, items: &mut Trees)
    ensures { plain_trees items.new ≡ trees_of (filter
        (λ item. not (is_text_named extension_name item)) (item_list (plain_trees items.old))) }
{
    let mut kept = std::mem::replace(items, Trees::from_vec(Vec::new(alloc))).into_vec();
    kept.retain(|item| !is_extension_name(item));
    *items = Trees::from_vec(kept);
}

// Whether a value is a text that stands for the name of the extension.
fn is_extension_name(value: &Tree) -> bool
    ensures { result ≡ is_text_named extension_name (plain value.now) }
{
    match value {
        Tree::Text(spelling) => key_is(spelling, "EXT_meshopt_compression"),
        _ => false,
    }
}

/// Puts the name of the extension at the end of both lists, each of which is made where it isn't there. After `Err` the tree is as
/// before, or has the name in the first of them, `extensionsUsed`.
#[tactic(auto, unfolding(crate::specs::Edits::with_extension_named))]
pub fn add_extension_names(alloc: Global, root: &mut Tree) -> Result<(), NoMemory>
    ensures named { OnOk result (plain root.new ≡ with_extension_named (plain root.old)) }
    ensures part { OnErr result (IsNamedInPart (plain root.old) (plain root.new)) }
{
    add_name_in(alloc, root, "extensionsUsed")?;
    add_name_in(alloc, root, "extensionsRequired")
}

// Puts the name at the end of one of the lists.
fn add_name_in(alloc: Global, root: &mut Tree, key: &str) -> Result<(), NoMemory>
    ensures named { OnOk result (plain root.new ≡ with_name_in key.now (plain root.old)) }
    ensures stays { OnErr result (plain root.new ≡ plain root.old) }
{
    let name = Tree::text(alloc, "EXT_meshopt_compression")?;
    if root.find(key).is_none() {
        return add_list(alloc, root, key, name);
    }
    append_in(root, key, name)
}

// Puts a value at the end of the list that a member holds.
fn append_in(root: &mut Tree, key: &str, value: Tree) -> Result<(), NoMemory>
    requires { IsSome (find_member key.now (plain root.old)) }
    ensures appended { OnOk result (plain root.new ≡ at_member key.now (and_items (plain value ∷ [])) (plain root.old)) }
    ensures stays { OnErr result (plain root.new ≡ plain root.old) }
{
    root.members_mut().find_mut(key).append(value)
}

// Makes a list of one value a member.
fn add_list(alloc: Global, root: &mut Tree, key: &str, value: Tree) -> Result<(), NoMemory>
    ensures added { OnOk result (plain root.new ≡ with_member key.now (and_items (plain value ∷ []) (list no_items)) (plain root.old)) }
    ensures stays { OnErr result (plain root.new ≡ plain root.old) }
{
    let mut values = Tree::list(alloc);
    values.append(value)?;
    root.set(alloc, key, values)
}
