// The names of extensions that the root lists (glTF 2.0, section 3.12).
ghost use Rattle.std.specs.Prelude.{◌≡◌};
ghost use Rattle.gp_tree.specs.Plain.{plain, plain_items, list};
ghost use Rattle.gp_fields.specs.Shapes.{a_text};
ghost use Rattle.gp_fields.specs.Record.{items_of_shape, items_of_member, fault_of};

use crate::fault::{FieldFault, Place};
use crate::reading::as_text;
use gp_tree::Tree;

// The fault of a member of the root that is to be a list of texts, where it is there.
pub(crate) fn names_fault(root: &Tree, key: &str, member: Place) -> Option<FieldFault>
    ensures { result ≡ fault_of (items_of_member member key.now a_text (plain root.now)) }
{
    match root.find(key) {
        None => None,
        Some(Tree::List(items)) => items_fault(items.as_slice(), member),
        Some(_) => Some(FieldFault { member, at: 0 }),
    }
}

// The fault of a list of texts.
fn items_fault(items: &[Tree], member: Place) -> Option<FieldFault>
    ensures { result ≡ fault_of (items_of_shape member a_text (list (plain_items items.now))) }
{
    'items: for at in 0..items.len() {
        let Some(_) = as_text(&items[at]) else {
            return Some(FieldFault { member, at });
        };
    }
    None
}
