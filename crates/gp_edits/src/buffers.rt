// The buffers of an asset (glTF 2.0, section 5.10).
ghost use Rattle.std.specs.Prelude.{◌≡◌, IfOk, OnOk, OnErr};
ghost use Rattle.gp_tree.specs.Plain.{plain};
ghost use Rattle.gp_edits.specs.Edits.{sized_buffer, fallback_buffer, with_one_buffer, with_two_buffers, with_buffers_of};

use gp_host::NoMemory;
use gp_tree::Tree;
use std::alloc::Global;

/// Gives an asset the buffers of its views: none, one of this length for their bytes, or also one of another length to
/// fall back on. After `Err` the tree is as before.
pub fn set_buffers(
    alloc: Global,
    root: &mut Tree,
    length: Option<u64>,
    fallback: Option<u64>,
) -> Result<(), NoMemory>
    ensures set { OnOk result (plain root.new ≡ with_buffers_of length fallback (plain root.old)) }
    ensures stays { OnErr result (plain root.new ≡ plain root.old) }
{
    match (length, fallback) {
        (None, _) => {
            root.remove("buffers");
            Ok(())
        }
        (Some(length), None) => set_one_buffer(alloc, root, length),
        (Some(length), Some(fallback)) => set_two_buffers(alloc, root, length, fallback),
    }
}

// Makes a buffer of this many bytes the one buffer of an asset.
#[tactic(auto, unfolding(crate::specs::Edits::with_one_buffer))]
fn set_one_buffer(alloc: Global, root: &mut Tree, length: u64) -> Result<(), NoMemory>
    ensures set { OnOk result (plain root.new ≡ with_one_buffer length (plain root.old)) }
    ensures stays { OnErr result (plain root.new ≡ plain root.old) }
{
    let mut buffers = Tree::list(alloc);
    buffers.append(sized_buffer(alloc, length)?)?;
    root.set(alloc, "buffers", buffers)
}

// Makes a buffer of this many bytes and one to fall back on, without bytes, the buffers of an asset.
#[tactic(auto, unfolding(crate::specs::Edits::with_two_buffers))]
fn set_two_buffers(
    alloc: Global,
    root: &mut Tree,
    length: u64,
    fallback: u64,
) -> Result<(), NoMemory>
    ensures set { OnOk result (plain root.new ≡ with_two_buffers length fallback (plain root.old)) }
    ensures stays { OnErr result (plain root.new ≡ plain root.old) }
{
    let mut buffers = Tree::list(alloc);
    buffers.append(sized_buffer(alloc, length)?)?;
    buffers.append(fallback_buffer(alloc, fallback)?)?;
    root.set(alloc, "buffers", buffers)
}

// A buffer that is known by its length alone.
fn sized_buffer(alloc: Global, length: u64) -> Result<Tree, NoMemory>
    ensures { IfOk result (λ buffer. plain buffer ≡ sized_buffer length) }
{
    let mut buffer = Tree::object(alloc);
    buffer.set(alloc, "byteLength", Tree::number(alloc, length)?)?;
    Ok(buffer)
}

// A buffer that is marked as one to fall back on.
fn fallback_buffer(alloc: Global, length: u64) -> Result<Tree, NoMemory>
    ensures { IfOk result (λ buffer. plain buffer ≡ fallback_buffer length) }
{
    let mut mark = Tree::object(alloc);
    mark.set(alloc, "fallback", Tree::Truth(true))?;
    let mut extensions = Tree::object(alloc);
    extensions.set(alloc, "EXT_meshopt_compression", mark)?;
    let mut buffer = sized_buffer(alloc, length)?;
    buffer.set(alloc, "extensions", extensions)?;
    Ok(buffer)
}
