// All fields of an asset.
ghost use Rattle.gp_tree.specs.Plain.{plain};
ghost use Rattle.gp_fields.specs.Record.{AssetFields as Meaning, Answers, asset_fields};
ghost use Rattle.gp_fields.specs.Left.{names_on, buffers_on, meshes_on};

use crate::accessor_fields::AccessorFields;
use crate::arrays::lacking;
use crate::buffer_fields::BufferFields;
use crate::fault::{FieldRefusal, Place};
use crate::geometry::MeshFields;
use crate::names::names_fault;
use crate::root::{
    accessors_of, animations_of, buffers_of, images_of, meshes_of, skins_of, views_of,
};
use crate::sampling::AnimationFields;
use crate::view_fields::ViewFields;
use gp_tree::Tree;
use std::alloc::Global;
use std::marker::Model;

/// The fields of an asset (glTF 2.0, section 5.17), array by array in the order of the JSON; an array that is absent is
/// empty.
#[derive(Drop)]
pub struct AssetFields<'a> {
    pub buffers: Vec<BufferFields<'a>>,
    pub views: Vec<ViewFields<'a>>,
    pub accessors: Vec<AccessorFields<'a>>,
    pub meshes: Vec<MeshFields>,
    /// Of each skin (section 5.28) the number of the accessor of its inverse bind matrices; `None` where it is absent.
    pub skins: Vec<Option<u32>>,
    pub animations: Vec<AnimationFields>,
    /// Of each image (section 5.18) the number of its buffer view; `None` where it is absent.
    pub images: Vec<Option<u32>>,
}

impl<'a> Model for AssetFields<'a> {
    ghost Value = { Meaning };

    ghost view = { λ a. record { buffers = a.buffers.items; views = a.views.items; accessors = a.accessors.items; meshes = a.meshes.items; skins = a.skins.items; animations = a.animations.items; images = a.images.items } };
}

/// The fields of the asset whose JSON this is. An error is the first member and item of another shape, in the order of
/// [`Place`], or want of memory. Other members than those of [`Place`] are not looked at.
#[tactic(auto, unfolding(crate::specs::Record::asset_fields))]
pub fn read_fields<'a>(alloc: Global, root: &'a Tree) -> Result<AssetFields<'a>, FieldRefusal>
    ensures { Answers (asset_fields (plain root.now)) (λ a. a) result }
{
    match root {
        Tree::Members(_) => read_from_names(alloc, root),
        _ => Err(lacking(Place::Root, 0)),
    }
}

fn read_from_names<'a>(alloc: Global, root: &'a Tree) -> Result<AssetFields<'a>, FieldRefusal>
    ensures { Answers (names_on (plain root.now)) (λ a. a) result }
{
    if let Some(fault) = names_fault(root, "extensionsUsed", Place::ExtensionsUsed) {
        return Err(FieldRefusal::Fault(fault));
    }
    if let Some(fault) = names_fault(root, "extensionsRequired", Place::ExtensionsRequired) {
        return Err(FieldRefusal::Fault(fault));
    }
    read_from_buffers(alloc, root)
}

fn read_from_buffers<'a>(alloc: Global, root: &'a Tree) -> Result<AssetFields<'a>, FieldRefusal>
    ensures { Answers (buffers_on (plain root.now)) (λ a. a) result }
{
    let buffers = buffers_of(alloc, root)?;
    let views = views_of(alloc, root, buffers.len())?;
    let accessors = accessors_of(alloc, root, views.len())?;
    read_from_meshes(alloc, root, buffers, views, accessors)
}

fn read_from_meshes<'a>(
    alloc: Global,
    root: &'a Tree,
    buffers: Vec<BufferFields<'a>>,
    views: Vec<ViewFields<'a>>,
    accessors: Vec<AccessorFields<'a>>,
) -> Result<AssetFields<'a>, FieldRefusal>
    ensures { Answers (meshes_on buffers.entry.items views.entry.items accessors.entry.items (plain root.now)) (λ a. a) result }
{
    let meshes = meshes_of(alloc, root, accessors.len())?;
    let skins = skins_of(alloc, root, accessors.len())?;
    let animations = animations_of(alloc, root, accessors.len())?;
    let images = images_of(alloc, root, views.len())?;
    Ok(AssetFields {
        buffers,
        views,
        accessors,
        meshes,
        skins,
        animations,
        images,
    })
}
