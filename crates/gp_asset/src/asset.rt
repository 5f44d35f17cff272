// What a program holds of an asset.
ghost use Rattle.std.specs.Prelude.{◌≡◌};

use crate::buffers::BufferBytes;
use crate::geometry::Primitive;
use crate::usage::AccessorUse;
use gp_rules::{Accessor, View};
use std::marker::Model;

/// An asset: buffer views, accessors, primitives, who uses which accessor, images, and the bytes of buffers. A BIN chunk
/// is borrowed; a decoded data URI is owned.
#[derive(Drop)]
pub struct Asset<'a> {
    pub(crate) buffers: Vec<BufferBytes<'a>>,
    pub(crate) views: Vec<View>,
    pub(crate) accessors: Vec<Accessor>,
    pub(crate) primitives: Vec<Primitive>,
    pub(crate) uses: Vec<AccessorUse>,
    pub(crate) images: Vec<Option<u32>>,
    pub(crate) closed: bool,
}

impl<'a> Model for Asset<'a> {
    ghost use Rattle.std.specs.Prelude.{map};
    ghost use Rattle.gp_asset.specs.Stored.{bytes_in};
    ghost use Rattle.gp_asset.specs.Asset.{AssetParts};

    ghost Value = { AssetParts };

    ghost view = { λ a. record { buffers = map bytes_in a.buffers.items; views = a.views.items; accessors = a.accessors.items; primitives = a.primitives.items; uses = a.uses.items; images = a.images.items; closed = a.closed } };
}

impl<'a> Asset<'a> {
    /// The buffer views.
    pub fn views(&self) -> &[View]
        ensures { result.now ≡ self.now.views }
    {
        self.views.as_slice()
    }

    /// The accessors.
    pub fn accessors(&self) -> &[Accessor]
        ensures { result.now ≡ self.now.accessors }
    {
        self.accessors.as_slice()
    }

    /// The primitives of all meshes, by mesh and then by place in it.
    pub fn primitives(&self) -> &[Primitive]
        ensures { result.now ≡ self.now.primitives }
    {
        self.primitives.as_slice()
    }

    /// The uses of accessors: of primitives in order, each with its attributes, targets and indices; then of skins; then
    /// of animations.
    pub fn uses(&self) -> &[AccessorUse]
        ensures { result.now ≡ self.now.uses }
    {
        self.uses.as_slice()
    }

    /// The buffer view of each image.
    pub fn images(&self) -> &[Option<u32>]
        ensures { result.now ≡ self.now.images }
    {
        self.images.as_slice()
    }

    /// Whether each extension in use is on the closed list: extensions by which a vertex is no more than what its
    /// accessors say.
    pub fn is_closed(&self) -> bool
        ensures { result ≡ self.now.closed }
    {
        self.closed
    }
}
