// Accessors (glTF 2.0, sections 3.6.2 and 5.1 to 5.4), against their buffer views.
ghost use Rattle.std.specs.Prelude.{◌≡◌, ◌≤◌};
ghost use Rattle.gp_rules.specs.Checks.{each, Answers};
ghost use Rattle.gp_rules.specs.Accessors.{sparse_of, known_accessor, end_of, runs_past, view_at, view_length, is_index, is_bad_sparse, is_bad_accessor, accessor_of};

use crate::accessing::{Accessor, Component, Shape, Sparse};
use crate::fault::{AssetFault, AssetRefusal};
use crate::sizes::element_size;
use crate::storage::View;
use gp_fields::{AccessorFields, SparseFields};
use std::alloc::Global;

/// The accessors of an asset, or the first fault of one.
pub fn read_accessors(
    alloc: Global,
    accessors: &[AccessorFields<'_>],
    views: &[View],
) -> Result<Vec<Accessor>, AssetRefusal>
    ensures { Answers (each (accessor_of views.now) 0 accessors.now) (λ v. v.items) result }
{
    let mut read = Vec::new(alloc);
    'accessors: for at in 0..accessors.len() {
        let accessor = match read_accessor(&accessors[at], at, views) {
            Ok(accessor) => accessor,
            Err(fault) => return Err(AssetRefusal::Fault(fault)),
        };
        read.push(accessor).map_err(|_| AssetRefusal::Memory)?;
    }
    Ok(read)
}

#[tactic(auto, unfolding(crate::specs::Accessors::accessor_of))]
fn read_accessor(
    fields: &AccessorFields<'_>,
    at: usize,
    views: &[View],
) -> Result<Accessor, AssetFault>
    ensures { result ≡ accessor_of views.now at fields.now }
{
    match known_accessor(fields) {
        Some(accessor) if !is_bad_accessor(&accessor, views) => Ok(accessor),
        _ => Err(AssetFault::Accessor { at }),
    }
}

// The accessor that fields stand for, where its components and its type are known.
#[tactic(auto, unfolding(crate::specs::Accessors::known_accessor))]
fn known_accessor(fields: &AccessorFields<'_>) -> Option<Accessor>
    ensures { result ≡ known_accessor fields.now }
{
    let component = Component::from_number(fields.component)?;
    let shape = Shape::from_name(fields.shape)?;
    let sparse = known_sparse(fields.sparse)?;
    Some(Accessor {
        view: fields.view,
        offset: fields.offset,
        component,
        shape,
        count: fields.count,
        sparse,
    })
}

fn known_sparse(fields: Option<SparseFields>) -> Option<Option<Sparse>>
    ensures { result ≡ sparse_of fields }
{
    let Some(fields) = fields else {
        return Some(None);
    };
    let index_component = Component::from_number(fields.indices.component)?;
    Some(Some(Sparse {
        count: fields.count,
        index_view: fields.indices.view,
        index_offset: fields.indices.offset,
        index_component,
        value_view: fields.values.view,
        value_offset: fields.values.offset,
    }))
}

// Whether an accessor is empty or runs past a view.
#[tactic(auto, unfolding(crate::specs::Accessors::is_bad_accessor))]
fn is_bad_accessor(accessor: &Accessor, views: &[View]) -> bool
    ensures { result ≡ is_bad_accessor views.now accessor.now }
{
    accessor.count == 0 || runs_past(accessor, views) || is_bad_sparse(accessor, views)
}

// Whether the last element ends behind the view of the accessor.
fn runs_past(accessor: &Accessor, views: &[View]) -> bool
    requires { 1 ≤ accessor.now.count }
    ensures { result ≡ runs_past accessor.now (view_at views.now accessor.now.view) }
{
    let Some(at) = accessor.view else {
        return false;
    };
    match views.get(at as usize) {
        None => false,
        Some(view) => (view.length as u64) < end_of(accessor, view),
    }
}

// The end of the last element.
fn end_of(accessor: &Accessor, view: &View) -> u64
    requires { 1 ≤ accessor.now.count }
    ensures { result ≡ end_of accessor.now view.now }
{
    let size = element_size(accessor.component, accessor.shape);
    let step = view.stride.unwrap_or(size);
    accessor.offset as u64 + (accessor.count as u64 - 1) * step as u64 + size as u64
}

// Whether the elements that are given apart are none or too many, or run past a view.
fn is_bad_sparse(accessor: &Accessor, views: &[View]) -> bool
    ensures { result ≡ is_bad_sparse views.now accessor.now accessor.now.sparse }
{
    let Some(sparse) = accessor.sparse else {
        return false;
    };
    let places = sparse.count as u64 * sparse.index_component.size() as u64;
    let values = sparse.count as u64 * element_size(accessor.component, accessor.shape) as u64;
    sparse.count == 0
        || accessor.count < sparse.count
        || !is_index(sparse.index_component)
        || view_length(views, sparse.index_view) < sparse.index_offset as u64 + places
        || view_length(views, sparse.value_view) < sparse.value_offset as u64 + values
}

// Whether elements can be numbered by this component.
fn is_index(component: Component) -> bool
    ensures { result ≡ is_index component }
{
    matches!(component, Component::U8 | Component::U16 | Component::U32)
}

// The length of a view; 0 where there is none.
fn view_length(views: &[View], at: u32) -> u64
    ensures { result ≡ view_length views.now at }
{
    match views.get(at as usize) {
        None => 0,
        Some(view) => view.length as u64,
    }
}
