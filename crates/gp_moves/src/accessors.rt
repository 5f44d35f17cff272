// Accessors of groups that move (glTF 2.0, section 5.1).
ghost use Rattle.std.specs.Prelude.{◌≡◌, ℕ, OnOk};
ghost use Rattle.gp_tree.specs.Plain.{plain};
ghost use Rattle.gp_moves.specs.Accessors.{move_at, accessor_moved, column_moved, corners_moved};

use crate::items::ItemEdits;
use gp_host::NoMemory;
use gp_tree::Tree;
use std::alloc::Global;

/// What becomes of an accessor.
#[derive(Clone, Copy, Debug, PartialEq, Eq)]
pub enum AccessorMove {
    /// It is one of the vertices of a group: all of so many in this view.
    Column {
        /// The number of the view.
        view: u32,
        /// How many vertices there are.
        count: u32,
    },
    /// It is a list of vertex numbers, of this component type in this view.
    Corners {
        /// The number of the view.
        view: u32,
        /// The component type.
        component: u32,
    },
    /// It is of no group.
    Stays,
}

/// What becomes of the accessor with this number, where it is given of the first ones.
pub(crate) fn move_at(moves: &[AccessorMove], at: usize) -> AccessorMove
    ensures { result ≡ move_at moves.now at }
{
    match moves.get(at) {
        Some(found) => *found,
        None => AccessorMove::Stays,
    }
}

// The accessors of groups, moved.
#[derive(Drop)]
pub(crate) struct MovedAccessors<'a> {
    pub(crate) moves: &'a [AccessorMove],
}

impl<'a> ItemEdits for MovedAccessors<'a> {
    ghost use Rattle.gp_moves.specs.Accessors.{move_at, accessor_moved};

    ghost change = { λ edits at t. accessor_moved (move_at edits.moves.now at) t };

    fn edit(&self, alloc: Global, at: usize, item: &mut Tree) -> Result<(), NoMemory> {
        match move_at(self.moves, at) {
            AccessorMove::Column { view, count } => move_column(alloc, item, view, count),
            AccessorMove::Corners { view, component } => {
                move_corners(alloc, item, view, component)
            }
            AccessorMove::Stays => Ok(()),
        }
    }
}

#[tactic(auto, unfolding(crate::specs::Accessors::column_moved))]
fn move_column(alloc: Global, accessor: &mut Tree, view: u32, count: u32) -> Result<(), NoMemory>
    ensures { OnOk result (plain accessor.new ≡ column_moved view count (plain accessor.old)) }
{
    accessor.set(alloc, "bufferView", Tree::number(alloc, view as u64)?)?;
    accessor.set(alloc, "count", Tree::number(alloc, count as u64)?)?;
    accessor.remove("byteOffset");
    accessor.remove("sparse");
    Ok(())
}

#[tactic(auto, unfolding(crate::specs::Accessors::corners_moved))]
fn move_corners(
    alloc: Global,
    accessor: &mut Tree,
    view: u32,
    component: u32,
) -> Result<(), NoMemory>
    ensures { OnOk result (plain accessor.new ≡ corners_moved view component (plain accessor.old)) }
{
    accessor.set(alloc, "bufferView", Tree::number(alloc, view as u64)?)?;
    accessor.set(
        alloc,
        "componentType",
        Tree::number(alloc, component as u64)?,
    )?;
    accessor.remove("byteOffset");
    accessor.remove("min");
    accessor.remove("max");
    accessor.remove("sparse");
    Ok(())
}
