// Members of the root, each an array that may be absent (glTF 2.0, section 5.17).
ghost use Rattle.std.specs.Prelude.{codes};
ghost use Rattle.gp_tree.specs.Plain.{plain};
ghost use Rattle.gp_fields.specs.declared.fault.Place.TheVariants.{Buffers, BufferViews, Accessors, Meshes, Skins, Animations, Images};
ghost use Rattle.gp_fields.specs.Shapes.{object_of};
ghost use Rattle.gp_fields.specs.Fields.{buffer_fields, view_fields, accessor_fields, mesh_fields, skin_fields, animation_fields, image_fields};
ghost use Rattle.gp_fields.specs.Record.{items_of_member, Answers};

use crate::accessor_fields::AccessorFields;
use crate::arrays::items_of;
use crate::buffer_fields::BufferFields;
use crate::fault::{FieldRefusal, Place};
use crate::geometry::MeshFields;
use crate::sampling::AnimationFields;
use crate::shapes::{
    AccessorShape, AnimationShape, BufferShape, ImageShape, MeshShape, SkinShape, ViewShape,
};
use crate::view_fields::ViewFields;
use gp_tree::Tree;
use std::alloc::Global;

pub(crate) fn buffers_of<'a>(
    alloc: Global,
    root: &'a Tree,
) -> Result<Vec<BufferFields<'a>>, FieldRefusal>
    ensures { Answers (items_of_member Buffers (codes "buffers") (object_of buffer_fields) (plain root.now)) (λ v. v.items) result }
{
    items_of(alloc, root, "buffers", Place::Buffers, &BufferShape)
}

pub(crate) fn views_of<'a>(
    alloc: Global,
    root: &'a Tree,
    buffers: usize,
) -> Result<Vec<ViewFields<'a>>, FieldRefusal>
    ensures { Answers (items_of_member BufferViews (codes "bufferViews") (object_of (view_fields buffers)) (plain root.now)) (λ v. v.items) result }
{
    items_of(
        alloc,
        root,
        "bufferViews",
        Place::BufferViews,
        &ViewShape { buffers },
    )
}

pub(crate) fn accessors_of<'a>(
    alloc: Global,
    root: &'a Tree,
    views: usize,
) -> Result<Vec<AccessorFields<'a>>, FieldRefusal>
    ensures { Answers (items_of_member Accessors (codes "accessors") (object_of (accessor_fields views)) (plain root.now)) (λ v. v.items) result }
{
    items_of(
        alloc,
        root,
        "accessors",
        Place::Accessors,
        &AccessorShape { views },
    )
}

pub(crate) fn meshes_of(
    alloc: Global,
    root: &Tree,
    accessors: usize,
) -> Result<Vec<MeshFields>, FieldRefusal>
    ensures { Answers (items_of_member Meshes (codes "meshes") (object_of (mesh_fields accessors)) (plain root.now)) (λ v. v.items) result }
{
    items_of(
        alloc,
        root,
        "meshes",
        Place::Meshes,
        &MeshShape { accessors },
    )
}

pub(crate) fn skins_of(
    alloc: Global,
    root: &Tree,
    accessors: usize,
) -> Result<Vec<Option<u32>>, FieldRefusal>
    ensures { Answers (items_of_member Skins (codes "skins") (object_of (skin_fields accessors)) (plain root.now)) (λ v. v.items) result }
{
    items_of(alloc, root, "skins", Place::Skins, &SkinShape { accessors })
}

pub(crate) fn animations_of(
    alloc: Global,
    root: &Tree,
    accessors: usize,
) -> Result<Vec<AnimationFields>, FieldRefusal>
    ensures { Answers (items_of_member Animations (codes "animations") (object_of (animation_fields accessors)) (plain root.now)) (λ v. v.items) result }
{
    items_of(
        alloc,
        root,
        "animations",
        Place::Animations,
        &AnimationShape { accessors },
    )
}

pub(crate) fn images_of(
    alloc: Global,
    root: &Tree,
    views: usize,
) -> Result<Vec<Option<u32>>, FieldRefusal>
    ensures { Answers (items_of_member Images (codes "images") (object_of (image_fields views)) (plain root.now)) (λ v. v.items) result }
{
    items_of(alloc, root, "images", Place::Images, &ImageShape { views })
}
