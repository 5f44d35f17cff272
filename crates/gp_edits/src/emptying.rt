// Members that an edit empties.
ghost use Rattle.std.specs.Prelude.{◌≡◌};
ghost use Rattle.gp_tree.specs.Plain.{plain};
ghost use Rattle.gp_tree.specs.Find.{find_member};
ghost use Rattle.gp_edits.specs.Changes.{is_empty};
ghost use Rattle.gp_edits.specs.Steps.{is_empty_at, past_emptied};

use gp_tree::Tree;

// Whether a member is an empty list or an empty object.
pub(crate) fn is_empty_member(tree: &Tree, key: &str) -> bool
    ensures { result ≡ is_empty_at (find_member key.now (plain tree.now)) }
{
    match tree.find(key) {
        Some(value) => is_empty(value),
        None => false,
    }
}

// Whether a value is an empty list or an empty object.
fn is_empty(value: &Tree) -> bool
    ensures { result ≡ is_empty (plain value.now) }
{
    match value {
        Tree::List(items) => items.as_slice().is_empty(),
        Tree::Members(members) => members.as_slice().is_empty(),
        _ => false,
    }
}

// Takes out a member that is empty and was not.
pub(crate) fn remove_emptied(tree: &mut Tree, key: &str, was_empty: bool)
    ensures { plain tree.new ≡ past_emptied key.now was_empty (plain tree.old) }
{
    if !was_empty && is_empty_member(tree, key) {
        tree.remove(key);
    }
}
