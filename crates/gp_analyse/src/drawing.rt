// What drawing the list of an accessor of indices takes.
ghost use Rattle.std.specs.Prelude.{◌≡◌, ◌≤◌, map, option_map, slice_get, Some, IfOk, IfSome, All};
ghost use Rattle.gp_elements.specs.Elements.{number_of};
ghost use Rattle.gp_elements.specs.Held.{HasEvery, contents_of, IsSound};
ghost use Rattle.gp_alias.specs.Movable.{is_scalar, has_corner_shape};
ghost use Rattle.gp_rules.specs.Accessors.{is_index};
ghost use Rattle.gp_analyse.specs.Costs.{corners_in, corners_at, vertices_from, drawn_by, drawn_at, lines_at, IsIndexList};

use crate::thinning::{IndexList, thin};
use gp_asset::{Asset, ViewBytes};
use gp_cache::{lines, misses};
use gp_elements::resolve;
use gp_host::NoMemory;
use gp_rules::{Accessor, Component, Shape};
use std::alloc::Global;

/// What doesn't depend on the primitive that draws a list.
#[derive(Clone, Copy)]
pub struct Drawn {
    /// How many triangles there are.
    pub triangles: u64,
    /// The least number of vertices that has them all.
    pub vertices: u64,
    /// How often they miss a cache of vertices.
    pub misses: u64,
}

/// What drawing accessor `at` takes; none where it is no list of whole triangles.
pub(crate) fn draw<V: ViewBytes>(
    alloc: Global,
    asset: &Asset<'_>,
    views: &V,
    at: usize,
) -> Result<Option<Drawn>, NoMemory>
    requires views { HasEvery asset.now.views (V.views views.now) }
    requires sound { All (IsSound asset.now.views) asset.now.accessors }
    ensures { IfOk result (λ drawn. drawn ≡ drawn_at asset.now (contents_of (V.views views.now)) at) }
{
    match index_list(asset, views, at) {
        Some(list) => {
            let drawn = draw_list(alloc, asset, views, &list)?;
            Ok(Some(drawn))
        }
        None => Ok(None),
    }
}

fn draw_list<V: ViewBytes>(
    alloc: Global,
    asset: &Asset<'_>,
    views: &V,
    list: &IndexList<'_>,
) -> Result<Drawn, NoMemory>
    requires views { HasEvery asset.now.views (V.views views.now) }
    requires list { IsIndexList asset.now (contents_of (V.views views.now)) list.now }
    ensures { IfOk result (λ drawn. drawn ≡ drawn_by (map number_of list.now.elements)) }
{
    let numbers = thin(alloc, asset, views, list)?;
    Ok(Drawn {
        triangles: list.elements.len() as u64 / 3,
        vertices: least_vertices(numbers.as_slice()),
        misses: misses(numbers.as_slice()),
    })
}

/// How often drawing accessor `at` misses a cache of lines, where each vertex has `stride` bytes; 0 where it is no list of whole
/// triangles.
pub(crate) fn count_lines<V: ViewBytes>(
    alloc: Global,
    asset: &Asset<'_>,
    views: &V,
    at: usize,
    stride: u32,
) -> Result<u64, NoMemory>
    requires views { HasEvery asset.now.views (V.views views.now) }
    requires sound { All (IsSound asset.now.views) asset.now.accessors }
    requires least { 1 ≤ stride }
    requires most { stride ≤ 64 }
    ensures { IfOk result (λ count. count ≡ lines_at asset.now (contents_of (V.views views.now)) at stride) }
{
    match index_list(asset, views, at) {
        Some(list) => {
            let numbers = thin(alloc, asset, views, &list)?;
            Ok(lines(numbers.as_slice(), stride))
        }
        None => Ok(0),
    }
}

/// The list of accessor `at` of an asset that was read and whose views are all held, where its numbers are the corners of whole triangles.
/// It takes no memory.
pub fn index_list<'a, V: ViewBytes>(
    asset: &Asset<'_>,
    views: &'a V,
    at: usize,
) -> Option<IndexList<'a>>
    requires views { HasEvery asset.now.views (V.views views.now) }
    requires sound { All (IsSound asset.now.views) asset.now.accessors }
    ensures corners { option_map (λ list. map number_of list.elements) result ≡ corners_at asset.now (contents_of (V.views views.now)) at }
    ensures list { IfSome result (IsIndexList asset.now (contents_of (V.views views.now))) }
{
    let accessors = asset.accessors();
    if at < accessors.len() {
        list_of(asset, views, &accessors[at], at)
    } else {
        None
    }
}

// The list of an accessor with this place.
fn list_of<'a, V: ViewBytes>(
    asset: &Asset<'_>,
    views: &'a V,
    accessor: &Accessor,
    at: usize,
) -> Option<IndexList<'a>>
    requires views { HasEvery asset.now.views (V.views views.now) }
    requires sound { All (IsSound asset.now.views) asset.now.accessors }
    requires there { slice_get asset.now.accessors at ≡ Some accessor.now }
    ensures corners { option_map (λ list. map number_of list.elements) result ≡ corners_in asset.now (contents_of (V.views views.now)) accessor.now }
    ensures list { IfSome result (IsIndexList asset.now (contents_of (V.views views.now))) }
{
    if !has_corner_shape(accessor) {
        return None;
    }
    match resolve(asset, views, at) {
        Some(elements) => Some(IndexList {
            accessor: *accessor,
            elements,
        }),
        None => None,
    }
}

// Whether an accessor has the numbers of the corners of whole triangles, by what it says of itself.
fn has_corner_shape(accessor: &Accessor) -> bool
    ensures { result ≡ has_corner_shape accessor.now }
{
    is_scalar(accessor.shape) && is_index(accessor.component) && accessor.count % 3 == 0
}

fn is_scalar(shape: Shape) -> bool
    ensures { result ≡ is_scalar shape }
{
    matches!(shape, Shape::Scalar)
}

fn is_index(component: Component) -> bool
    ensures { result ≡ is_index component }
{
    matches!(component, Component::U8 | Component::U16 | Component::U32)
}

// The least number of vertices that has these.
fn least_vertices(numbers: &[u32]) -> u64
    ensures { result ≡ vertices_from 0 numbers.now }
{
    let mut least = 0;
    'numbers: for at in 0..numbers.len() {
        least = least.max(numbers[at] as u64 + 1);
    }
    least
}
