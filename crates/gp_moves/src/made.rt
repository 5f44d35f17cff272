// Accessors and buffer views that are made (glTF 2.0, sections 5.1 and 5.11).
ghost use Rattle.std.specs.Prelude.{◌≡◌, IfOk, OnOk};
ghost use Rattle.gp_tree.specs.Plain.{plain};
ghost use Rattle.gp_moves.specs.MadeTrees.{list_tree, view_tree, purpose_set};

use crate::appending::Makes;
use gp_host::NoMemory;
use gp_tree::Tree;
use std::alloc::Global;

/// An accessor of vertex numbers that is made for primitives without indices.
#[derive(Clone, Copy, Debug, PartialEq, Eq)]
pub struct MadeList {
    /// The number of its view.
    pub view: u32,
    /// The component type.
    pub component: u32,
    /// How many vertex numbers there are.
    pub count: u32,
}

/// A buffer view that is made for an accessor of a group.
#[derive(Clone, Copy, Debug, PartialEq, Eq)]
pub struct MadeView {
    /// How many bytes it has.
    pub length: u64,
    /// From one vertex to the next; none of vertex numbers.
    pub stride: Option<u64>,
}

// Accessors to be made.
#[derive(Drop)]
pub(crate) struct MadeLists<'a> {
    pub(crate) lists: &'a [MadeList],
}

impl<'a> Makes for MadeLists<'a> {
    ghost use Rattle.std.specs.Prelude.{map};
    ghost use Rattle.gp_moves.specs.MadeTrees.{list_tree};

    ghost trees = { λ made. map list_tree made.lists.now };

    fn count(&self) -> usize {
        self.lists.len()
    }

    fn make(&self, alloc: Global, at: usize) -> Result<Tree, NoMemory> {
        made_list(alloc, self.lists[at])
    }
}

fn made_list(alloc: Global, list: MadeList) -> Result<Tree, NoMemory>
    ensures { IfOk result (λ made. plain made ≡ list_tree list) }
{
    let mut made = Tree::object(alloc);
    made.set(alloc, "bufferView", Tree::number(alloc, list.view as u64)?)?;
    made.set(
        alloc,
        "componentType",
        Tree::number(alloc, list.component as u64)?,
    )?;
    made.set(alloc, "count", Tree::number(alloc, list.count as u64)?)?;
    made.set(alloc, "type", Tree::text(alloc, "SCALAR")?)?;
    Ok(made)
}

// Views to be made.
#[derive(Drop)]
pub(crate) struct MadeViews<'a> {
    pub(crate) views: &'a [MadeView],
}

impl<'a> Makes for MadeViews<'a> {
    ghost use Rattle.std.specs.Prelude.{map};
    ghost use Rattle.gp_moves.specs.MadeTrees.{view_tree};

    ghost trees = { λ made. map view_tree made.views.now };

    fn count(&self) -> usize {
        self.views.len()
    }

    fn make(&self, alloc: Global, at: usize) -> Result<Tree, NoMemory> {
        made_view(alloc, self.views[at])
    }
}

fn made_view(alloc: Global, view: MadeView) -> Result<Tree, NoMemory>
    ensures { IfOk result (λ made. plain made ≡ view_tree view) }
{
    let mut made = Tree::object(alloc);
    made.set(alloc, "buffer", Tree::number(alloc, 0)?)?;
    made.set(alloc, "byteOffset", Tree::number(alloc, 0)?)?;
    made.set(alloc, "byteLength", Tree::number(alloc, view.length)?)?;
    set_purpose(alloc, &mut made, view.stride)?;
    Ok(made)
}

#[tactic(auto, unfolding(crate::specs::MadeTrees::purpose_set))]
fn set_purpose(alloc: Global, view: &mut Tree, stride: Option<u64>) -> Result<(), NoMemory>
    ensures { OnOk result (plain view.new ≡ purpose_set stride (plain view.old)) }
{
    match stride {
        Some(stride) => {
            view.set(alloc, "byteStride", Tree::number(alloc, stride)?)?;
            view.set(alloc, "target", Tree::number(alloc, 34962)?)
        }
        None => view.set(alloc, "target", Tree::number(alloc, 34963)?),
    }
}
