// The lists of triangles that are written for strips and fans.
ghost use Rattle.std.specs.Prelude.{◌≡◌, ◌<◌, IfOk, length, option_map, All};
ghost use Rattle.gp_elements.specs.Held.{HasEvery, contents_of, IsSound};
ghost use Rattle.gp_strips.specs.Listed.{triangles_of, listed_triangles};

use crate::corners::triangles;
use crate::vertices::vertices_of;
use gp_asset::{Asset, Primitive, ViewBytes};
use gp_host::NoMemory;
use std::alloc::Global;

/// The list of triangles that is written for a strip or a fan, as numbers of its vertices, of an asset that was read and whose views are
/// all held. None where no list is written for the primitive (`specs/Listed.antt`).
pub fn listed_triangles<V: ViewBytes>(
    alloc: Global,
    asset: &Asset<'_>,
    views: &V,
    at: usize,
) -> Result<Option<Vec<u32>>, NoMemory>
    requires views { HasEvery asset.now.views (V.views views.now) }
    requires sound { All (IsSound asset.now.views) asset.now.accessors }
    requires within { at < length asset.now.primitives }
    ensures { IfOk result (λ list. option_map (λ v. v.items) list ≡ listed_triangles asset.now (contents_of (V.views views.now)) at) }
{
    triangles_of(alloc, asset, views, &asset.primitives()[at])
}

/// That of a primitive.
pub(crate) fn triangles_of<V: ViewBytes>(
    alloc: Global,
    asset: &Asset<'_>,
    views: &V,
    primitive: &Primitive,
) -> Result<Option<Vec<u32>>, NoMemory>
    requires views { HasEvery asset.now.views (V.views views.now) }
    requires sound { All (IsSound asset.now.views) asset.now.accessors }
    ensures { IfOk result (λ list. option_map (λ v. v.items) list ≡ triangles_of asset.now (contents_of (V.views views.now)) primitive.now) }
{
    match vertices_of(alloc, asset, views, primitive)? {
        Some(vertices) => Ok(Some(triangles(alloc, primitive.mode, vertices.as_slice())?)),
        None => Ok(None),
    }
}
