// The extension object of a compressed buffer view (EXT_meshopt_compression).
ghost use Rattle.std.specs.Prelude.{◌≡◌, IfOk, OnOk, OnErr, IsSome, codes};
ghost use Rattle.gp_tree.specs.Plain.{plain, members, no_members};
ghost use Rattle.gp_tree.specs.Find.{find_member};
ghost use Rattle.gp_tree.specs.TreeEdits.{with_member, at_member};
ghost use Rattle.gp_rules.specs.Kinds.{mode_name};
ghost use Rattle.gp_edits.specs.Edits.{extension_name, compression_object, compressed};

use gp_host::NoMemory;
use gp_rules::StreamMode;
use gp_tree::Tree;
use std::alloc::Global;

/// Where the stream of a view is in the first buffer, and what it holds. Numbers of bytes, save the count.
#[derive(Clone, Copy, Debug, PartialEq, Eq)]
pub struct Compression {
    /// Where the stream begins.
    pub offset: u64,
    /// The length of the stream.
    pub length: u64,
    /// The size of an element.
    pub stride: u64,
    /// The number of elements.
    pub count: u64,
    /// How the elements are encoded.
    pub mode: StreamMode,
}

/// Gives a view this extension object, beside its other extensions. One that it has is replaced. After `Err` the view is as
/// before.
pub fn compress_view(
    alloc: Global,
    view: &mut Tree,
    compression: Compression,
) -> Result<(), NoMemory>
    ensures compressed { OnOk result (plain view.new ≡ compressed compression (plain view.old)) }
    ensures stays { OnErr result (plain view.new ≡ plain view.old) }
{
    let object = compression_object(alloc, compression)?;
    if view.find("extensions").is_none() {
        return add_extension(alloc, view, object);
    }
    set_extension(alloc, view, object)
}

// Puts an extension object into the extensions of a view.
fn set_extension(alloc: Global, view: &mut Tree, object: Tree) -> Result<(), NoMemory>
    requires { IsSome (find_member (codes "extensions") (plain view.old)) }
    ensures set { OnOk result (plain view.new ≡ at_member (codes "extensions")
        (with_member extension_name (plain object)) (plain view.old)) }
    ensures stays { OnErr result (plain view.new ≡ plain view.old) }
{
    view.members_mut()
        .find_mut("extensions")
        .set(alloc, "EXT_meshopt_compression", object)
}

// Gives a view this extension object as its one extension.
fn add_extension(alloc: Global, view: &mut Tree, object: Tree) -> Result<(), NoMemory>
    ensures set { OnOk result (plain view.new ≡ with_member (codes "extensions")
        (with_member extension_name (plain object) (members no_members)) (plain view.old)) }
    ensures stays { OnErr result (plain view.new ≡ plain view.old) }
{
    let mut extensions = Tree::object(alloc);
    extensions.set(alloc, "EXT_meshopt_compression", object)?;
    view.set(alloc, "extensions", extensions)
}

fn compression_object(alloc: Global, compression: Compression) -> Result<Tree, NoMemory>
    ensures { IfOk result (λ object. plain object ≡ compression_object compression) }
{
    let mut object = Tree::object(alloc);
    object.set(alloc, "buffer", Tree::number(alloc, 0)?)?;
    object.set(
        alloc,
        "byteOffset",
        Tree::number(alloc, compression.offset)?,
    )?;
    object.set(
        alloc,
        "byteLength",
        Tree::number(alloc, compression.length)?,
    )?;
    object.set(
        alloc,
        "byteStride",
        Tree::number(alloc, compression.stride)?,
    )?;
    object.set(alloc, "count", Tree::number(alloc, compression.count)?)?;
    object.set(
        alloc,
        "mode",
        Tree::text(alloc, mode_name(compression.mode))?,
    )?;
    Ok(object)
}

// The name of a mode.
fn mode_name(mode: StreamMode) -> &'static str
    ensures { result.now ≡ mode_name mode }
{
    match mode {
        StreamMode::Attributes => "ATTRIBUTES",
        StreamMode::Triangles => "TRIANGLES",
        StreamMode::Indices => "INDICES",
    }
}
