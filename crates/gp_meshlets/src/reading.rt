// The list of triangles that a primitive draws.
ghost use Rattle.std.specs.Prelude.{◌≡◌, option_map, option_and_then, slice_get, IfOk, IfSome, All};
ghost use Rattle.gp_elements.specs.Held.{HasEvery, contents_of, IsSound};
ghost use Rattle.gp_alias.specs.Groups.{count_at};
ghost use Rattle.gp_alias.specs.Plain.{all_vertices, list_in, list_by, list_of};
ghost use Rattle.gp_analyse.specs.Costs.{corners_at, IsKnown};
ghost use Rattle.gp_meshlets.specs.Corners.{corners_of, HasNumbers};

use crate::corners::Corners;
use gp_analyse::{Known, index_list};
use gp_asset::{Asset, Primitive, ViewBytes};
use gp_host::NoMemory;
use gp_rules::Accessor;
use std::alloc::Global;

/// The list that a primitive draws, where it is a plain list of triangles.
pub(crate) fn plain_list<'a, V: ViewBytes>(
    known: &mut Known,
    alloc: Global,
    asset: &Asset<'_>,
    views: &'a V,
    primitive: &Primitive,
) -> Result<Option<Corners<'a>>, NoMemory>
    requires views { HasEvery asset.now.views (V.views views.now) }
    requires sound { All (IsSound asset.now.views) asset.now.accessors }
    requires known { IsKnown asset.now (contents_of (V.views views.now)) known.old }
    ensures list { IfOk result (λ list. option_map corners_of list ≡ list_of asset.now (contents_of (V.views views.now)) primitive.now) }
    ensures numbers { IfOk result (λ list. IfSome list HasNumbers) }
    ensures known { IsKnown asset.now (contents_of (V.views views.now)) known.new }
{
    let attributes = primitive.attributes.as_slice();
    if attributes.is_empty() {
        return Ok(None);
    }
    let vertices = count_at(asset.accessors(), attributes[0].accessor);
    list_by(known, alloc, asset, views, vertices, primitive.indices)
}

// How many elements an accessor has, 0 where it is not there.
fn count_at(accessors: &[Accessor], at: u32) -> u32
    ensures { result ≡ count_at accessors.now at }
{
    match accessors.get(at as usize) {
        Some(accessor) => accessor.count,
        None => 0,
    }
}

// By the accessor of `indices`, where there are so many vertices.
fn list_by<'a, V: ViewBytes>(
    known: &mut Known,
    alloc: Global,
    asset: &Asset<'_>,
    views: &'a V,
    vertices: u32,
    indices: Option<u32>,
) -> Result<Option<Corners<'a>>, NoMemory>
    requires views { HasEvery asset.now.views (V.views views.now) }
    requires sound { All (IsSound asset.now.views) asset.now.accessors }
    requires known { IsKnown asset.now (contents_of (V.views views.now)) known.old }
    ensures list { IfOk result (λ list. option_map corners_of list ≡ list_by asset.now (contents_of (V.views views.now)) vertices indices) }
    ensures numbers { IfOk result (λ list. IfSome list HasNumbers) }
    ensures known { IsKnown asset.now (contents_of (V.views views.now)) known.new }
{
    match indices {
        Some(at) => list_in(known, alloc, asset, views, vertices, at),
        None => Ok(all_vertices(vertices)),
    }
}

// All vertices in their order, where they are whole triangles.
fn all_vertices<'a>(vertices: u32) -> Option<Corners<'a>>
    ensures list { option_map corners_of result ≡ all_vertices vertices }
    ensures numbers { IfSome result HasNumbers }
{
    if vertices % 3 == 0 {
        Some(Corners::Rising(vertices))
    } else {
        None
    }
}

// The numbers in accessor `at`, where they are the corners of whole triangles over so many vertices. How many vertices they take is known
// from the first primitive that draws them on.
fn list_in<'a, V: ViewBytes>(
    known: &mut Known,
    alloc: Global,
    asset: &Asset<'_>,
    views: &'a V,
    vertices: u32,
    at: u32,
) -> Result<Option<Corners<'a>>, NoMemory>
    requires views { HasEvery asset.now.views (V.views views.now) }
    requires sound { All (IsSound asset.now.views) asset.now.accessors }
    requires known { IsKnown asset.now (contents_of (V.views views.now)) known.old }
    ensures list { IfOk result (λ list. option_map corners_of list ≡ option_and_then (list_in asset.now (contents_of (V.views views.now)) vertices) (slice_get asset.now.accessors at)) }
    ensures numbers { IfOk result (λ list. IfSome list HasNumbers) }
    ensures known { IsKnown asset.now (contents_of (V.views views.now)) known.new }
{
    let Some(drawn) = known.drawn(alloc, asset, views, at)? else {
        return Ok(None);
    };
    if (vertices as u64) < drawn.vertices {
        return Ok(None);
    }
    Ok(corners_at(asset, views, at))
}

// The numbers in accessor `at`, where they are the corners of whole triangles.
fn corners_at<'a, V: ViewBytes>(asset: &Asset<'_>, views: &'a V, at: u32) -> Option<Corners<'a>>
    requires views { HasEvery asset.now.views (V.views views.now) }
    requires sound { All (IsSound asset.now.views) asset.now.accessors }
    ensures list { option_map corners_of result ≡ corners_at asset.now (contents_of (V.views views.now)) at }
    ensures numbers { IfSome result HasNumbers }
{
    match index_list(asset, views, at as usize) {
        Some(list) => Some(Corners::Numbered(list.elements)),
        None => None,
    }
}
