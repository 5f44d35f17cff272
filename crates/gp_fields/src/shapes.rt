// The shapes of the items of arrays: of the root's (glTF 2.0, section 5.17), and of those inside meshes and animations.
ghost use Rattle.std.specs.Prelude.{◌≡◌};
ghost use Rattle.gp_tree.specs.Plain.{plain};
ghost use Rattle.gp_fields.specs.Shapes.{object_of};
ghost use Rattle.gp_fields.specs.Fields.{buffer_fields, view_fields, accessor_fields, mesh_fields, skin_fields, animation_fields, image_fields, primitive_fields, sampler_fields, entries_fields};

use crate::accessor_fields::AccessorFields;
use crate::arrays::ItemShape;
use crate::attribute_fields::read_entries;
use crate::buffer_fields::BufferFields;
use crate::geometry::{Entries, MeshFields, PrimitiveFields};
use crate::reading::{as_object, optional_reference};
use crate::sampling::{AnimationFields, SamplerFields};
use crate::view_fields::ViewFields;
use gp_host::NoMemory;
use gp_tree::Tree;
use std::alloc::Global;

// A buffer.
#[derive(Drop)]
pub(crate) struct BufferShape;

impl<'a> ItemShape<'a, BufferFields<'a>> for BufferShape {
    ghost shape = { λ _. object_of buffer_fields };

    fn read(&self, _: Global, value: &'a Tree) -> Result<Option<BufferFields<'a>>, NoMemory> {
        Ok(BufferFields::read(value))
    }
}

// A buffer view, among so many buffers.
#[derive(Drop)]
pub(crate) struct ViewShape {
    pub(crate) buffers: usize,
}

impl<'a> ItemShape<'a, ViewFields<'a>> for ViewShape {
    ghost shape = { λ s. object_of (view_fields s.buffers) };

    fn read(&self, _: Global, value: &'a Tree) -> Result<Option<ViewFields<'a>>, NoMemory> {
        Ok(ViewFields::read(value, self.buffers))
    }
}

// An accessor, among so many buffer views.
#[derive(Drop)]
pub(crate) struct AccessorShape {
    pub(crate) views: usize,
}

impl<'a> ItemShape<'a, AccessorFields<'a>> for AccessorShape {
    ghost shape = { λ s. object_of (accessor_fields s.views) };

    fn read(&self, _: Global, value: &'a Tree) -> Result<Option<AccessorFields<'a>>, NoMemory> {
        Ok(AccessorFields::read(value, self.views))
    }
}

// A mesh, among so many accessors.
#[derive(Drop)]
pub(crate) struct MeshShape {
    pub(crate) accessors: usize,
}

impl<'a> ItemShape<'a, MeshFields> for MeshShape {
    ghost shape = { λ s. object_of (mesh_fields s.accessors) };

    fn read(&self, alloc: Global, value: &'a Tree) -> Result<Option<MeshFields>, NoMemory> {
        MeshFields::read(alloc, value, self.accessors)
    }
}

// A skin, among so many accessors: the one of its inverse bind matrices.
#[derive(Drop)]
pub(crate) struct SkinShape {
    pub(crate) accessors: usize,
}

impl<'a> ItemShape<'a, Option<u32>> for SkinShape {
    ghost shape = { λ s. object_of (skin_fields s.accessors) };

    fn read(&self, _: Global, value: &'a Tree) -> Result<Option<Option<u32>>, NoMemory> {
        Ok(read_skin(value, self.accessors))
    }
}

fn read_skin(value: &Tree, accessors: usize) -> Option<Option<u32>>
    ensures { result ≡ object_of (skin_fields accessors) (plain value.now) }
{
    optional_reference(as_object(value)?, "inverseBindMatrices", accessors)
}

// An animation, among so many accessors.
#[derive(Drop)]
pub(crate) struct AnimationShape {
    pub(crate) accessors: usize,
}

impl<'a> ItemShape<'a, AnimationFields> for AnimationShape {
    ghost shape = { λ s. object_of (animation_fields s.accessors) };

    fn read(&self, alloc: Global, value: &'a Tree) -> Result<Option<AnimationFields>, NoMemory> {
        AnimationFields::read(alloc, value, self.accessors)
    }
}

// An image, among so many buffer views: the one that it is in.
#[derive(Drop)]
pub(crate) struct ImageShape {
    pub(crate) views: usize,
}

impl<'a> ItemShape<'a, Option<u32>> for ImageShape {
    ghost shape = { λ s. object_of (image_fields s.views) };

    fn read(&self, _: Global, value: &'a Tree) -> Result<Option<Option<u32>>, NoMemory> {
        Ok(read_image(value, self.views))
    }
}

fn read_image(value: &Tree, views: usize) -> Option<Option<u32>>
    ensures { result ≡ object_of (image_fields views) (plain value.now) }
{
    optional_reference(as_object(value)?, "bufferView", views)
}

// A primitive of a mesh, among so many accessors.
#[derive(Drop)]
pub(crate) struct PrimitiveShape {
    pub(crate) accessors: usize,
}

impl<'a> ItemShape<'a, PrimitiveFields> for PrimitiveShape {
    ghost shape = { λ s. object_of (primitive_fields s.accessors) };

    fn read(&self, alloc: Global, value: &'a Tree) -> Result<Option<PrimitiveFields>, NoMemory> {
        PrimitiveFields::read(alloc, value, self.accessors)
    }
}

// A morph target of a primitive, among so many accessors.
#[derive(Drop)]
pub(crate) struct TargetShape {
    pub(crate) accessors: usize,
}

impl<'a> ItemShape<'a, Entries> for TargetShape {
    ghost shape = { λ s. object_of (entries_fields s.accessors) };

    fn read(&self, alloc: Global, value: &'a Tree) -> Result<Option<Entries>, NoMemory> {
        read_entries(alloc, value, self.accessors)
    }
}

// A sampler of an animation, among so many accessors.
#[derive(Drop)]
pub(crate) struct SamplerShape {
    pub(crate) accessors: usize,
}

impl<'a> ItemShape<'a, SamplerFields> for SamplerShape {
    ghost shape = { λ s. object_of (sampler_fields s.accessors) };

    fn read(&self, _: Global, value: &'a Tree) -> Result<Option<SamplerFields>, NoMemory> {
        Ok(SamplerFields::read(value, self.accessors))
    }
}
