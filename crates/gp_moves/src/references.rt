// References to buffer views, which get new numbers (glTF 2.0, sections 5.1 to 5.3 and 5.18).
ghost use Rattle.std.specs.Prelude.{◌≡◌, ℕ, OnOk};
ghost use Rattle.gp_tree.specs.Plain.{plain};
ghost use Rattle.gp_moves.specs.References.{new_number, reference, view_reference, sparse_references, keeps_place, accessor_references};

use crate::accessors::{AccessorMove, move_at};
use crate::items::ItemEdits;
use crate::members::{TreeEdit, edit_member};
use crate::numbers::ViewNumbers;
use gp_host::NoMemory;
use gp_tree::Tree;
use std::alloc::Global;

// The number of a view.
#[derive(Drop)]
struct Reference<'a> {
    views: ViewNumbers<'a>,
}

impl<'a> TreeEdit for Reference<'a> {
    ghost use Rattle.gp_moves.specs.References.{new_number, reference};

    ghost change = { λ edit. reference (new_number edit.views.numbers.now edit.views.dropped) };

    fn edit(&self, alloc: Global, tree: &mut Tree) -> Result<(), NoMemory> {
        let Some(view) = tree.whole() else {
            return Ok(());
        };
        if let Some(number) = self.views.number(view) {
            *tree = Tree::number(alloc, number as u64)?;
        }
        Ok(())
    }
}

// The member `bufferView` of an object.
#[derive(Drop)]
struct ViewReference<'a> {
    views: ViewNumbers<'a>,
}

impl<'a> TreeEdit for ViewReference<'a> {
    ghost use Rattle.gp_moves.specs.References.{new_number, view_reference};

    ghost change = { λ edit. view_reference (new_number edit.views.numbers.now edit.views.dropped) };

    fn edit(&self, alloc: Global, tree: &mut Tree) -> Result<(), NoMemory> {
        edit_member(alloc, tree, "bufferView", &Reference { views: self.views })
    }
}

// The `sparse` of an accessor.
#[derive(Drop)]
struct SparseReferences<'a> {
    views: ViewNumbers<'a>,
}

impl<'a> TreeEdit for SparseReferences<'a> {
    ghost use Rattle.gp_moves.specs.References.{new_number, sparse_references};

    ghost change = { λ edit. sparse_references (new_number edit.views.numbers.now edit.views.dropped) };

    fn edit(&self, alloc: Global, tree: &mut Tree) -> Result<(), NoMemory> {
        let views = self.views;
        edit_member(alloc, tree, "indices", &ViewReference { views })?;
        edit_member(alloc, tree, "values", &ViewReference { views })
    }
}

// The accessors that stay.
#[derive(Drop)]
pub(crate) struct AccessorReferences<'a> {
    pub(crate) moves: &'a [AccessorMove],
    pub(crate) views: ViewNumbers<'a>,
}

impl<'a> ItemEdits for AccessorReferences<'a> {
    ghost use Rattle.gp_moves.specs.References.{new_number, accessor_references};

    ghost change = { λ edits at t. accessor_references edits.moves.now (new_number edits.views.numbers.now edits.views.dropped) at t };

    fn edit(&self, alloc: Global, at: usize, item: &mut Tree) -> Result<(), NoMemory> {
        if !keeps_place(self.moves, at) {
            return Ok(());
        }
        let views = self.views;
        edit_member(alloc, item, "bufferView", &Reference { views })?;
        edit_member(alloc, item, "sparse", &SparseReferences { views })
    }
}

// Whether the accessor is one of those given, and doesn't move.
fn keeps_place(moves: &[AccessorMove], at: usize) -> bool
    ensures { result ≡ keeps_place moves.now at }
{
    at < moves.len() && matches!(move_at(moves, at), AccessorMove::Stays)
}

// The images.
#[derive(Drop)]
pub(crate) struct ImageReferences<'a> {
    pub(crate) views: ViewNumbers<'a>,
}

impl<'a> ItemEdits for ImageReferences<'a> {
    ghost use Rattle.gp_moves.specs.References.{new_number, view_reference};

    ghost change = { λ edits at. view_reference (new_number edits.views.numbers.now edits.views.dropped) };

    fn edit(&self, alloc: Global, at: usize, item: &mut Tree) -> Result<(), NoMemory> {
        edit_member(alloc, item, "bufferView", &Reference { views: self.views })
    }
}
