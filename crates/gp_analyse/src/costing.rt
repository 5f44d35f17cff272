// What drawing a primitive costs.
ghost use Rattle.std.specs.Prelude.{◌≡◌, ◌≤◌, option_map, option_and_then, slice_get, Some, IfOk, All};
ghost use Rattle.gp_elements.specs.Held.{HasEvery, contents_of, IsSound};
ghost use Rattle.gp_alias.specs.Plain.{list_in, all_vertices, list_by};
ghost use Rattle.gp_analyse.specs.Text.{first_of, vertex_size};
ghost use Rattle.gp_analyse.specs.Costs.{costs_in, costs_at, IsKnown, IsStride};

use crate::known::Known;
use gp_asset::{Asset, Entry, Primitive, ViewBytes};
use gp_host::NoMemory;
use gp_rules::{Accessor, element_size};
use std::alloc::Global;

/// The costs of a list of triangles.
#[derive(Clone, Copy)]
pub(crate) struct Costs {
    /// How many vertices there are.
    pub(crate) vertices: u64,
    /// How many triangles.
    pub(crate) triangles: u64,
    /// How often they miss a cache of vertices.
    pub(crate) misses: u64,
    /// How often they miss a cache of lines.
    pub(crate) lines: u64,
}

/// The costs of a primitive of triangles; none where it draws no plain list.
pub(crate) fn costs_at<V: ViewBytes>(
    known: &mut Known,
    alloc: Global,
    asset: &Asset<'_>,
    views: &V,
    primitive: &Primitive,
) -> Result<Option<Costs>, NoMemory>
    requires views { HasEvery asset.now.views (V.views views.now) }
    requires sound { All (IsSound asset.now.views) asset.now.accessors }
    requires known { IsKnown asset.now (contents_of (V.views views.now)) known.old }
    ensures costs { IfOk result (λ costs. costs ≡ costs_at asset.now (contents_of (V.views views.now)) primitive.now) }
    ensures known { IsKnown asset.now (contents_of (V.views views.now)) known.new }
{
    match first_of(asset.accessors(), primitive.attributes.as_slice()) {
        Some(first) => costs_by(known, alloc, asset, views, first, primitive.indices),
        None => Ok(None),
    }
}

// The accessor of the first of these attributes.
fn first_of<'a>(accessors: &'a [Accessor], attributes: &[Entry]) -> Option<&'a Accessor>
    ensures { option_map (λ a. a.now) result ≡ first_of accessors.now attributes.now }
{
    match attributes.first() {
        Some(first) => accessors.get(first.accessor as usize),
        None => None,
    }
}

// By the accessor of `indices`.
fn costs_by<V: ViewBytes>(
    known: &mut Known,
    alloc: Global,
    asset: &Asset<'_>,
    views: &V,
    first: &Accessor,
    indices: Option<u32>,
) -> Result<Option<Costs>, NoMemory>
    requires views { HasEvery asset.now.views (V.views views.now) }
    requires sound { All (IsSound asset.now.views) asset.now.accessors }
    requires known { IsKnown asset.now (contents_of (V.views views.now)) known.old }
    ensures costs { IfOk result (λ costs. costs ≡ costs_in (list_by asset.now (contents_of (V.views views.now)) first.now.count indices) (Some first.now)) }
    ensures known { IsKnown asset.now (contents_of (V.views views.now)) known.new }
{
    match indices {
        Some(at) => indexed_costs(known, alloc, asset, views, first, at),
        None => Ok(rising_costs(first)),
    }
}

// Of the list in an accessor, where it numbers vertices.
fn indexed_costs<V: ViewBytes>(
    known: &mut Known,
    alloc: Global,
    asset: &Asset<'_>,
    views: &V,
    first: &Accessor,
    at: u32,
) -> Result<Option<Costs>, NoMemory>
    requires views { HasEvery asset.now.views (V.views views.now) }
    requires sound { All (IsSound asset.now.views) asset.now.accessors }
    requires known { IsKnown asset.now (contents_of (V.views views.now)) known.old }
    ensures costs { IfOk result (λ costs. costs ≡ costs_in (option_and_then (list_in asset.now (contents_of (V.views views.now)) first.now.count) (slice_get asset.now.accessors at)) (Some first.now)) }
    ensures known { IsKnown asset.now (contents_of (V.views views.now)) known.new }
{
    let Some(drawn) = known.drawn(alloc, asset, views, at)? else {
        return Ok(None);
    };
    let vertices = first.count as u64;
    if vertices < drawn.vertices {
        return Ok(None);
    }
    let lines = known.lines(alloc, asset, views, at, vertex_size(first))?;
    Ok(Some(Costs {
        vertices,
        triangles: drawn.triangles,
        misses: drawn.misses,
        lines,
    }))
}

// Of all vertices in their order: each is missed once, and so is each line that they touch.
fn rising_costs(first: &Accessor) -> Option<Costs>
    ensures { result ≡ costs_in (all_vertices first.now.count) (Some first.now) }
{
    if first.count % 3 != 0 {
        return None;
    }
    let vertices = first.count as u64;
    Some(Costs {
        vertices,
        triangles: vertices / 3,
        misses: vertices,
        lines: (vertices * vertex_size(first) as u64).div_ceil(64),
    })
}

// The bytes of an accessor's element, up to the next multiple of 4.
fn vertex_size(accessor: &Accessor) -> u32
    ensures size { result ≡ vertex_size accessor.now }
    ensures stride { IsStride result }
{
    element_size(accessor.component, accessor.shape).div_ceil(4) * 4
}
