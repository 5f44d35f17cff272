// Plain lists of triangles.
ghost use Rattle.std.specs.Prelude.{◌≡◌, ◌<◌, IfOk, Some, length, slice_get, option_map, All};
ghost use Rattle.gp_elements.specs.Held.{HasEvery, contents_of, IsSound};
ghost use Rattle.gp_alias.specs.Plain.{are_below, all_vertices, list_in, list_by, list_of, plain_list};

use crate::listing::{push_numbers, push_vertices};
use crate::movable::has_corner_shape;
use crate::moves::count_at;
use gp_asset::{Asset, Primitive, ViewBytes};
use gp_elements::resolve;
use gp_host::NoMemory;
use gp_rules::Accessor;
use std::alloc::Global;

/// The list of triangles that a primitive of mode 4 draws, as numbers of its vertices, of an asset that was read and whose
/// views are all held. None where it has no attribute or is no plain list otherwise (`specs/Plain.antt`).
pub fn plain_list<V: ViewBytes>(
    alloc: Global,
    asset: &Asset<'_>,
    views: &V,
    at: usize,
) -> Result<Option<Vec<u32>>, NoMemory>
    requires views { HasEvery asset.now.views (V.views views.now) }
    requires sound { All (IsSound asset.now.views) asset.now.accessors }
    requires within { at < length asset.now.primitives }
    ensures { IfOk result (λ list. option_map (λ v. v.items) list ≡ plain_list asset.now (contents_of (V.views views.now)) at) }
{
    primitive_list(alloc, asset, views, &asset.primitives()[at])
}

// The list of a primitive.
fn primitive_list<V: ViewBytes>(
    alloc: Global,
    asset: &Asset<'_>,
    views: &V,
    primitive: &Primitive,
) -> Result<Option<Vec<u32>>, NoMemory>
    requires views { HasEvery asset.now.views (V.views views.now) }
    requires sound { All (IsSound asset.now.views) asset.now.accessors }
    ensures { IfOk result (λ list. option_map (λ v. v.items) list ≡ list_of asset.now (contents_of (V.views views.now)) primitive.now) }
{
    let attributes = primitive.attributes.as_slice();
    if attributes.is_empty() {
        return Ok(None);
    }
    let vertices = count_at(asset.accessors(), attributes[0].accessor);
    indexed_list(alloc, asset, views, vertices, primitive.indices)
}

// By the accessor of `indices`, where there are so many vertices.
fn indexed_list<V: ViewBytes>(
    alloc: Global,
    asset: &Asset<'_>,
    views: &V,
    vertices: u32,
    indices: Option<u32>,
) -> Result<Option<Vec<u32>>, NoMemory>
    requires views { HasEvery asset.now.views (V.views views.now) }
    requires sound { All (IsSound asset.now.views) asset.now.accessors }
    ensures { IfOk result (λ list. option_map (λ v. v.items) list ≡ list_by asset.now (contents_of (V.views views.now)) vertices indices) }
{
    let Some(number) = indices else {
        return all_vertices(alloc, vertices);
    };
    let accessors = asset.accessors();
    let at = number as usize;
    if at < accessors.len() {
        list_in(alloc, asset, views, vertices, &accessors[at], at)
    } else {
        Ok(None)
    }
}

// The numbers in an accessor with this place, where they are the corners of whole triangles.
fn list_in<V: ViewBytes>(
    alloc: Global,
    asset: &Asset<'_>,
    views: &V,
    vertices: u32,
    accessor: &Accessor,
    at: usize,
) -> Result<Option<Vec<u32>>, NoMemory>
    requires views { HasEvery asset.now.views (V.views views.now) }
    requires sound { All (IsSound asset.now.views) asset.now.accessors }
    requires there { slice_get asset.now.accessors at ≡ Some accessor.now }
    ensures { IfOk result (λ list. option_map (λ v. v.items) list ≡ list_in asset.now (contents_of (V.views views.now)) vertices accessor.now) }
{
    if !has_corner_shape(accessor) {
        return Ok(None);
    }
    let Some(elements) = resolve(asset, views, at) else {
        return Ok(None);
    };
    let mut numbers = Vec::with_capacity(alloc, elements.len())?;
    push_numbers(&mut numbers, &elements)?;
    if !are_below(numbers.as_slice(), vertices) {
        return Ok(None);
    }
    Ok(Some(numbers))
}

// Whether each number is of a vertex, of which there are so many.
fn are_below(numbers: &[u32], count: u32) -> bool
    ensures { result ≡ are_below count numbers.now }
{
    numbers.iter().all(|number| *number < count)
}

// All vertices in their order, where they are whole triangles.
fn all_vertices(alloc: Global, vertices: u32) -> Result<Option<Vec<u32>>, NoMemory>
    ensures { IfOk result (λ list. option_map (λ v. v.items) list ≡ all_vertices vertices) }
{
    if vertices % 3 != 0 {
        return Ok(None);
    }
    let mut numbers = Vec::with_capacity(alloc, vertices as usize)?;
    push_vertices(&mut numbers, vertices)?;
    Ok(Some(numbers))
}
