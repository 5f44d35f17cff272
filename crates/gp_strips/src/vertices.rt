// The vertices of strips and fans.
ghost use Rattle.std.specs.Prelude.{◌≡◌, ◌≤◌, ◌<◌, ◌^◌, ◌-◌, IfOk, IfSome, Some, length, slice_get, map, option_map, All};
ghost use Rattle.std.specs.List.{list_all};
ghost use Rattle.gp_elements.specs.Elements.{number_of};
ghost use Rattle.gp_elements.specs.Held.{HasEvery, contents_of, IsSound};
ghost use Rattle.gp_rules.specs.Accessors.{is_index as is_index_component};
ghost use Rattle.gp_rules.specs.Sizes.{component_size};
ghost use Rattle.gp_alias.specs.Groups.{count_at};
ghost use Rattle.gp_alias.specs.Movable.{holds_at, is_vertex};
ghost use Rattle.gp_alias.specs.Records.{AreNumbers};
ghost use Rattle.gp_strips.specs.Listed.{is_column, are_columns, has_columns, is_listed_length, has_index_shape, vertices_in, all_vertices, vertices_by, is_strip_or_fan, vertices_of, listed_vertices};

use gp_asset::{Asset, Entries, Entry, Primitive, ViewBytes};
use gp_elements::{Elements, resolve};
use gp_host::NoMemory;
use gp_rules::{Accessor, Component, Shape};
use std::alloc::Global;

// The most vertices of a strip or a fan that is listed.
const MOST_VERTICES: u32 = 1 << 24;

/// The vertices of a strip or a fan, in their order, of an asset that was read and whose views are all held. None where no list of
/// triangles is written for it (`specs/Listed.antt`).
pub fn listed_vertices<V: ViewBytes>(
    alloc: Global,
    asset: &Asset<'_>,
    views: &V,
    at: usize,
) -> Result<Option<Vec<u32>>, NoMemory>
    requires views { HasEvery asset.now.views (V.views views.now) }
    requires sound { All (IsSound asset.now.views) asset.now.accessors }
    requires within { at < length asset.now.primitives }
    ensures { IfOk result (λ list. option_map (λ v. v.items) list ≡ listed_vertices asset.now (contents_of (V.views views.now)) at) }
{
    vertices_of(alloc, asset, views, &asset.primitives()[at])
}

/// Those of a primitive.
pub(crate) fn vertices_of<V: ViewBytes>(
    alloc: Global,
    asset: &Asset<'_>,
    views: &V,
    primitive: &Primitive,
) -> Result<Option<Vec<u32>>, NoMemory>
    requires views { HasEvery asset.now.views (V.views views.now) }
    requires sound { All (IsSound asset.now.views) asset.now.accessors }
    ensures { IfOk result (λ list. option_map (λ v. v.items) list ≡ vertices_of asset.now (contents_of (V.views views.now)) primitive.now) }
{
    if !(asset.is_closed() && is_strip_or_fan(primitive.mode)) {
        return Ok(None);
    }
    let attributes = primitive.attributes.as_slice();
    if attributes.is_empty() {
        return Ok(None);
    }
    let count = count_at(asset.accessors(), attributes[0].accessor);
    if !has_columns(asset, views, primitive, count) {
        return Ok(None);
    }
    vertices_by(alloc, asset, views, count, primitive.indices)
}

fn is_strip_or_fan(mode: u32) -> bool
    ensures { result ≡ is_strip_or_fan mode }
{
    mode == 5 || mode == 6
}

// How many elements an accessor has, 0 where it is not there.
fn count_at(accessors: &[Accessor], at: u32) -> u32
    ensures { result ≡ count_at accessors.now at }
{
    match accessors.get(at as usize) {
        Some(accessor) => accessor.count,
        None => 0,
    }
}

// ---- columns

// Whether all attributes and morph targets have an element for each of so many vertices.
fn has_columns<V: ViewBytes>(
    asset: &Asset<'_>,
    views: &V,
    primitive: &Primitive,
    count: u32,
) -> bool
    requires views { HasEvery asset.now.views (V.views views.now) }
    requires sound { All (IsSound asset.now.views) asset.now.accessors }
    ensures { result ≡ has_columns asset.now (contents_of (V.views views.now)) count primitive.now }
{
    are_columns(asset, views, primitive.attributes.as_slice(), count)
        && have_columns(asset, views, primitive.targets.as_slice(), count)
}

fn have_columns<V: ViewBytes>(asset: &Asset<'_>, views: &V, targets: &[Entries], count: u32) -> bool
    requires views { HasEvery asset.now.views (V.views views.now) }
    requires sound { All (IsSound asset.now.views) asset.now.accessors }
    ensures { result ≡ list_all (are_columns asset.now (contents_of (V.views views.now)) count) targets.now }
{
    'targets: for at in 0..targets.len() {
        if !are_columns(asset, views, targets[at].as_slice(), count) {
            return false;
        }
    }
    true
}

fn are_columns<V: ViewBytes>(asset: &Asset<'_>, views: &V, entries: &[Entry], count: u32) -> bool
    requires views { HasEvery asset.now.views (V.views views.now) }
    requires sound { All (IsSound asset.now.views) asset.now.accessors }
    ensures { result ≡ are_columns asset.now (contents_of (V.views views.now)) count entries.now }
{
    'entries: for at in 0..entries.len() {
        if !is_column_at(asset, views, entries[at].accessor, count) {
            return false;
        }
    }
    true
}

fn is_column_at<V: ViewBytes>(asset: &Asset<'_>, views: &V, at: u32, count: u32) -> bool
    requires views { HasEvery asset.now.views (V.views views.now) }
    requires sound { All (IsSound asset.now.views) asset.now.accessors }
    ensures { result ≡ holds_at asset.now.accessors (is_column (contents_of (V.views views.now)) count) at }
{
    let accessors = asset.accessors();
    let place = at as usize;
    place < accessors.len() && is_column(asset, views, &accessors[place], place, count)
}

// Of the accessor at this place.
fn is_column<V: ViewBytes>(
    asset: &Asset<'_>,
    views: &V,
    accessor: &Accessor,
    at: usize,
    count: u32,
) -> bool
    requires views { HasEvery asset.now.views (V.views views.now) }
    requires sound { All (IsSound asset.now.views) asset.now.accessors }
    requires there { slice_get asset.now.accessors at ≡ Some accessor.now }
    ensures { result ≡ is_column (contents_of (V.views views.now)) count accessor.now }
{
    accessor.count == count && resolve(asset, views, at).is_some()
}

// ---- lists

// By the accessor of `indices`, where there are so many vertices.
fn vertices_by<V: ViewBytes>(
    alloc: Global,
    asset: &Asset<'_>,
    views: &V,
    count: u32,
    indices: Option<u32>,
) -> Result<Option<Vec<u32>>, NoMemory>
    requires views { HasEvery asset.now.views (V.views views.now) }
    requires sound { All (IsSound asset.now.views) asset.now.accessors }
    ensures { IfOk result (λ list. option_map (λ v. v.items) list ≡ vertices_by asset.now (contents_of (V.views views.now)) count indices) }
{
    let Some(number) = indices else {
        return all_vertices(alloc, count);
    };
    let accessors = asset.accessors();
    let at = number as usize;
    if at < accessors.len() {
        vertices_in(alloc, asset, views, count, &accessors[at], at)
    } else {
        Ok(None)
    }
}

// The numbers in an accessor with this place, where each is of a vertex and none restarts the primitive.
fn vertices_in<V: ViewBytes>(
    alloc: Global,
    asset: &Asset<'_>,
    views: &V,
    count: u32,
    accessor: &Accessor,
    at: usize,
) -> Result<Option<Vec<u32>>, NoMemory>
    requires views { HasEvery asset.now.views (V.views views.now) }
    requires sound { All (IsSound asset.now.views) asset.now.accessors }
    requires there { slice_get asset.now.accessors at ≡ Some accessor.now }
    ensures { IfOk result (λ list. option_map (λ v. v.items) list ≡ vertices_in asset.now (contents_of (V.views views.now)) count accessor.now) }
{
    if !has_index_shape(accessor) {
        return Ok(None);
    }
    let Some(elements) = resolve(asset, views, at) else {
        return Ok(None);
    };
    let numbers = numbers(alloc, &elements)?;
    if !are_vertices(numbers.as_slice(), count, greatest(accessor.component)) {
        return Ok(None);
    }
    Ok(Some(numbers))
}

// The elements of a list as numbers.
fn numbers(alloc: Global, list: &Elements<'_>) -> Result<Vec<u32>, NoMemory>
    requires { AreNumbers list.now }
    ensures { IfOk result (λ v. v.items ≡ map number_of list.now) }
{
    let mut numbers = Vec::with_capacity(alloc, list.len())?;
    'items: for at in 0..list.len() {
        numbers.push(list.number(at))?;
    }
    Ok(numbers)
}

// Whether each number is of a vertex, and none is the greatest one.
fn are_vertices(numbers: &[u32], count: u32, most: u32) -> bool
    ensures { result ≡ list_all (is_vertex count most) numbers.now }
{
    numbers
        .iter()
        .all(|number| *number < count && *number != most)
}

// All vertices in their order.
fn all_vertices(alloc: Global, count: u32) -> Result<Option<Vec<u32>>, NoMemory>
    ensures { IfOk result (λ list. option_map (λ v. v.items) list ≡ all_vertices count) }
{
    if !is_listed_length(count) {
        return Ok(None);
    }
    let mut numbers = Vec::with_capacity(alloc, count as usize)?;
    'vertices: for vertex in 0..count {
        numbers.push(vertex)?;
    }
    Ok(Some(numbers))
}

// Whether so many vertices make a triangle, and not too many of them.
fn is_listed_length(count: u32) -> bool
    ensures { result ≡ is_listed_length count }
{
    count >= 3 && count <= MOST_VERTICES
}

fn has_index_shape(accessor: &Accessor) -> bool
    ensures { result ≡ has_index_shape accessor.now }
{
    matches!(accessor.shape, Shape::Scalar)
        && is_index(accessor.component)
        && is_listed_length(accessor.count)
}

fn is_index(component: Component) -> bool
    ensures { result ≡ is_index_component component }
{
    matches!(component, Component::U8 | Component::U16 | Component::U32)
}

// The greatest number that fits a component.
fn greatest(component: Component) -> u32
    ensures { result ≡ 256 ^ component_size component - 1 }
{
    match component {
        Component::I8 | Component::U8 => u8::MAX as u32,
        Component::I16 | Component::U16 => u16::MAX as u32,
        Component::U32 | Component::F32 => u32::MAX,
    }
}
