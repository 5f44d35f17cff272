// Which groups may move.
ghost use Rattle.std.specs.Prelude.{◌≡◌, ◌<◌, ◌-◌, ◌^◌, ℕ, Some, length, slice_get, map, IfSome};
ghost use Rattle.std.specs.List.{All, list_all};
ghost use Rattle.gp_elements.specs.Elements.{number_of, IsNumber};
ghost use Rattle.gp_elements.specs.Held.{HasEvery, contents_of, IsSound};
ghost use Rattle.gp_rules.specs.Sizes.{component_size};
ghost use Rattle.gp_rules.specs.Accessors.{is_index};
ghost use Rattle.gp_alias.specs.Movable.{is_column, has_column_shape, is_given, is_vector, is_scalar, is_triangle_list, has_corner_shape, is_vertex, is_index_list, holds_at, has_attributes};
ghost use Rattle.gp_alias.specs.Users.{are_alone};

use crate::usage::Users;
use gp_asset::{Asset, Primitive, ViewBytes};
use gp_elements::{Elements, resolve};
use gp_rules::{Accessor, Component, Shape};

// ---- attributes

/// Whether each of these primitives has an attribute.
pub(crate) fn have_attributes(primitives: &[Primitive], places: &[u32]) -> bool
    ensures { result ≡ list_all (has_attributes primitives.now) places.now }
{
    'places: for at in 0..places.len() {
        if !has_attributes(primitives, places[at]) {
            return false;
        }
    }
    true
}

fn has_attributes(primitives: &[Primitive], at: u32) -> bool
    ensures { result ≡ has_attributes primitives.now at }
{
    let place = at as usize;
    place < primitives.len() && !primitives[place].attributes.as_slice().is_empty()
}

// ---- users

/// Whether nobody uses these accessors but this group.
pub(crate) fn are_alone(users: &[Users], group: usize, numbers: &[u32]) -> bool
    ensures { result ≡ are_alone users.now group numbers.now }
{
    'numbers: for at in 0..numbers.len() {
        let number = numbers[at] as usize;
        if number < users.len() && !users[number].are_only(group) {
            return false;
        }
    }
    true
}

// ---- columns

/// Whether these accessors are so many scalars or vectors each, with a `sparse` that is resolvable or none.
pub(crate) fn are_columns<V: ViewBytes>(
    asset: &Asset<'_>,
    views: &V,
    columns: &[u32],
    count: u32,
) -> bool
    requires views { HasEvery asset.now.views (V.views views.now) }
    requires sound { All (IsSound asset.now.views) asset.now.accessors }
    ensures { result ≡ list_all (holds_at asset.now.accessors (is_column (contents_of (V.views views.now)) count)) columns.now }
{
    'columns: for at in 0..columns.len() {
        if !is_column_at(asset, views, columns[at], count) {
            return false;
        }
    }
    true
}

fn is_column_at<V: ViewBytes>(asset: &Asset<'_>, views: &V, at: u32, count: u32) -> bool
    requires views { HasEvery asset.now.views (V.views views.now) }
    requires sound { All (IsSound asset.now.views) asset.now.accessors }
    ensures { result ≡ holds_at asset.now.accessors (is_column (contents_of (V.views views.now)) count) at }
{
    let accessors = asset.accessors();
    let place = at as usize;
    place < accessors.len() && is_column(asset, views, &accessors[place], place, count)
}

// Of the accessor at this place.
fn is_column<V: ViewBytes>(
    asset: &Asset<'_>,
    views: &V,
    accessor: &Accessor,
    at: usize,
    count: u32,
) -> bool
    requires views { HasEvery asset.now.views (V.views views.now) }
    requires sound { All (IsSound asset.now.views) asset.now.accessors }
    requires there { slice_get asset.now.accessors at ≡ Some accessor.now }
    ensures { result ≡ is_column (contents_of (V.views views.now)) count accessor.now }
{
    has_column_shape(accessor, count) && resolve(asset, views, at).is_some()
}

fn has_column_shape(accessor: &Accessor, count: u32) -> bool
    ensures { result ≡ has_column_shape count accessor.now }
{
    is_given(accessor) && is_vector(accessor.shape) && accessor.count == count
}

fn is_given(accessor: &Accessor) -> bool
    ensures { result ≡ is_given accessor.now }
{
    accessor.view.is_some() || accessor.sparse.is_some()
}

fn is_vector(shape: Shape) -> bool
    ensures { result ≡ is_vector shape }
{
    match shape {
        Shape::Scalar | Shape::Vec2 | Shape::Vec3 | Shape::Vec4 => true,
        Shape::Mat2 | Shape::Mat3 | Shape::Mat4 => false,
    }
}

// ---- lists

/// Whether these accessors are lists of triangles of so many vertices.
pub(crate) fn are_index_lists<V: ViewBytes>(
    asset: &Asset<'_>,
    views: &V,
    lists: &[u32],
    count: u32,
) -> bool
    requires views { HasEvery asset.now.views (V.views views.now) }
    requires sound { All (IsSound asset.now.views) asset.now.accessors }
    ensures { result ≡ list_all (holds_at asset.now.accessors (is_index_list asset.now (contents_of (V.views views.now)) count)) lists.now }
{
    'lists: for at in 0..lists.len() {
        if !is_index_list_at(asset, views, lists[at], count) {
            return false;
        }
    }
    true
}

fn is_index_list_at<V: ViewBytes>(asset: &Asset<'_>, views: &V, at: u32, count: u32) -> bool
    requires views { HasEvery asset.now.views (V.views views.now) }
    requires sound { All (IsSound asset.now.views) asset.now.accessors }
    ensures { result ≡ holds_at asset.now.accessors (is_index_list asset.now (contents_of (V.views views.now)) count) at }
{
    let accessors = asset.accessors();
    let place = at as usize;
    place < accessors.len() && is_index_list(asset, views, &accessors[place], place, count)
}

// Of the accessor at this place.
fn is_index_list<V: ViewBytes>(
    asset: &Asset<'_>,
    views: &V,
    accessor: &Accessor,
    at: usize,
    count: u32,
) -> bool
    requires views { HasEvery asset.now.views (V.views views.now) }
    requires sound { All (IsSound asset.now.views) asset.now.accessors }
    requires there { slice_get asset.now.accessors at ≡ Some accessor.now }
    ensures { result ≡ is_index_list asset.now (contents_of (V.views views.now)) count accessor.now }
{
    if !is_triangle_list(accessor) {
        return false;
    }
    match resolve(asset, views, at) {
        Some(elements) => has_vertices(&elements, count, greatest(accessor.component)),
        None => false,
    }
}

#[tactic(auto, unfolding(crate::specs::Movable::is_triangle_list))]
fn is_triangle_list(accessor: &Accessor) -> bool
    ensures { result ≡ is_triangle_list accessor.now }
{
    is_given(accessor) && has_corner_shape(accessor)
}

/// Whether an accessor has the numbers of the corners of whole triangles, by what it says of itself.
pub(crate) fn has_corner_shape(accessor: &Accessor) -> bool
    ensures { result ≡ has_corner_shape accessor.now }
{
    is_scalar(accessor.shape) && is_index(accessor.component) && accessor.count % 3 == 0
}

fn is_scalar(shape: Shape) -> bool
    ensures { result ≡ is_scalar shape }
{
    matches!(shape, Shape::Scalar)
}

fn is_index(component: Component) -> bool
    ensures { result ≡ is_index component }
{
    matches!(component, Component::U8 | Component::U16 | Component::U32)
}

// The greatest number that fits a component.
fn greatest(component: Component) -> u32
    ensures { result ≡ 256 ^ component_size component - 1 }
{
    match component {
        Component::I8 | Component::U8 => u8::MAX as u32,
        Component::I16 | Component::U16 => u16::MAX as u32,
        Component::U32 | Component::F32 => u32::MAX,
    }
}

// Whether each of these numbers is below the count, and none is the greatest one.
fn has_vertices(elements: &Elements<'_>, count: u32, most: u32) -> bool
    requires { (i : ℕ) → i < length elements.now → IfSome (slice_get elements.now i) IsNumber }
    ensures { result ≡ list_all (is_vertex count most) (map number_of elements.now) }
{
    let mut passed: usize = 0;
    'items: for at in 0..elements.len() {
        if !is_vertex(elements.next_number(at, &mut passed), count, most) {
            return false;
        }
    }
    true
}

fn is_vertex(number: u32, count: u32, most: u32) -> bool
    ensures { result ≡ is_vertex count most number }
{
    number < count && number != most
}
