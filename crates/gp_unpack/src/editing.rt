// The JSON of an asset whose views are all plain.
ghost use Rattle.std.specs.Prelude.{◌≡◌, OnOk, length, map};
ghost use Rattle.gp_tree.specs.Plain.{plain};
ghost use Rattle.gp_layout.specs.Layout.{starts};
ghost use Rattle.gp_layout.specs.Row.{buffer_length};
ghost use Rattle.gp_edits.specs.Edits.{with_plain_views};
ghost use Rattle.gp_unpack.specs.Unpacked.{unpacked_views, unpacked_tree};

use crate::contents::Contents;
use gp_edits::{
    ViewEdits, edit_views, place_view, remove_compression, remove_extension_names, set_buffers,
};
use gp_host::NoMemory;
use gp_tree::Tree;
use std::alloc::Global;

// The views at the places of these contents, without their extension objects.
#[derive(Drop)]
struct PlainViews<'a> {
    contents: &'a Contents,
}

impl<'a> ViewEdits for PlainViews<'a> {
    ghost use Rattle.std.specs.Prelude.{length, map};
    ghost use Rattle.gp_layout.specs.Layout.{starts};
    ghost use Rattle.gp_edits.specs.Edits.{plain_view};

    ghost edits = { λ views. map plain_view (starts (map length views.contents.now)) };

    fn edit(&self, alloc: Global, at: usize, view: &mut Tree) -> Result<(), NoMemory> {
        remove_compression(view);
        place_view(alloc, view, 0, self.contents.start(at) as u64)
    }
}

// Edits the JSON of an asset whose views have these contents, in one buffer.
#[tactic(auto, unfolding(crate::specs::Unpacked::unpacked_tree))]
pub(crate) fn edit_tree(alloc: Global, root: &mut Tree, contents: &Contents) -> Result<(), NoMemory>
    ensures { OnOk result (plain root.new ≡ unpacked_tree contents.now (plain root.old)) }
{
    edit_unpacked(alloc, root, contents)?;
    set_buffers(alloc, root, buffer_length(contents), None)
}

/// Edits the JSON of an asset whose views have these contents but for its `buffers`: each view is plain, at the place of its
/// contents in one buffer, and the name of the extension is in no list. After want of memory it holds some of these edits.
#[tactic(auto, unfolding(crate::specs::Unpacked::unpacked_views))]
pub fn edit_unpacked(alloc: Global, tree: &mut Tree, contents: &Contents) -> Result<(), NoMemory>
    ensures { OnOk result (plain tree.new ≡ unpacked_views contents.now (plain tree.old)) }
{
    place_views(alloc, tree, contents)?;
    remove_extension_names(alloc, tree);
    Ok(())
}

// Says where each view stands.
fn place_views(alloc: Global, root: &mut Tree, contents: &Contents) -> Result<(), NoMemory>
    ensures { OnOk result (plain root.new ≡ with_plain_views (starts (map length contents.now)) (plain root.old)) }
{
    edit_views(alloc, root, &PlainViews { contents }, contents.len())
}

// How many bytes the one buffer has; none where there are no views.
fn buffer_length(contents: &Contents) -> Option<u64>
    ensures { result ≡ buffer_length contents.now }
{
    if contents.len() == 0 {
        return None;
    }
    Some(contents.buffer().len() as u64)
}
