// Where the bytes of a buffer view are (glTF 2.0, section 5.11), and its extension object.
ghost use Rattle.std.specs.Prelude.{◌≡◌, OnOk, OnErr, IsSome, codes};
ghost use Rattle.gp_tree.specs.Plain.{plain};
ghost use Rattle.gp_tree.specs.Find.{find_member};
ghost use Rattle.gp_tree.specs.TreeEdits.{at_member, without};
ghost use Rattle.gp_edits.specs.InPart.{IsPlacedInPart};
ghost use Rattle.gp_edits.specs.Edits.{extension_name, placed, without_compression};

use crate::emptying::{is_empty_member, remove_emptied};
use gp_host::NoMemory;
use gp_tree::Tree;
use std::alloc::Global;

/// Says that the bytes of a view are in this buffer, from this byte on. After `Err` the view is as before, or has only its
/// buffer set.
#[tactic(auto, unfolding(crate::specs::Edits::placed))]
pub fn place_view(alloc: Global, view: &mut Tree, buffer: u64, offset: u64) -> Result<(), NoMemory>
    ensures placed { OnOk result (plain view.new ≡ placed buffer offset (plain view.old)) }
    ensures part { OnErr result (IsPlacedInPart buffer (plain view.old) (plain view.new)) }
{
    view.set(alloc, "buffer", Tree::number(alloc, buffer)?)?;
    view.set(alloc, "byteOffset", Tree::number(alloc, offset)?)
}

/// Takes the extension object out of a view, and `extensions` where nothing else stood there.
pub fn remove_compression(view: &mut Tree)
    ensures { plain view.new ≡ without_compression (plain view.old) }
{
    if view.find("extensions").is_none() {
        return;
    }
    let was_empty = is_empty_member(view, "extensions");
    remove_extension(view);
    remove_emptied(view, "extensions", was_empty);
}

// Takes the extension object out of the extensions of a view.
fn remove_extension(view: &mut Tree)
    requires { IsSome (find_member (codes "extensions") (plain view.old)) }
    ensures { plain view.new ≡ at_member (codes "extensions") (without extension_name) (plain view.old) }
{
    view.members_mut()
        .find_mut("extensions")
        .remove("EXT_meshopt_compression");
}
