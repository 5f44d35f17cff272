// The records of a group.
ghost use Rattle.std.specs.Prelude.{◌≡◌, ◌++◌, ◌*◌, ◌^◌, ◌<◌, true, length, flat_map, filter_map, IfOk, OnOk};
ghost use Rattle.std.specs.List.{All, concat, range_with_len};
ghost use Rattle.gp_elements.specs.Elements.{resolved_at};
ghost use Rattle.gp_elements.specs.Held.{HasEvery, contents_of, IsSound};
ghost use Rattle.gp_alias.specs.Movable.{is_movable};
ghost use Rattle.gp_alias.specs.Records.{records, record_at, HasItem, HasItems};

use crate::group::Group;
use gp_asset::{Asset, ViewBytes};
use gp_elements::{Elements, resolve};
use gp_host::NoMemory;
use std::alloc::Global;

/// The records of a group that may move, joined: of each vertex its elements in all columns. The asset was read and its views
/// are all held. It fails only for want of memory.
pub fn gather<V: ViewBytes>(
    alloc: Global,
    asset: &Asset<'_>,
    views: &V,
    group: &Group,
) -> Result<Vec<u8>, NoMemory>
    requires views { HasEvery asset.now.views (V.views views.now) }
    requires sound { All (IsSound asset.now.views) asset.now.accessors }
    requires movable { is_movable asset.now (contents_of (V.views views.now)) group.now ≡ true }
    ensures { IfOk result (λ v. v.items ≡ concat (records asset.now (contents_of (V.views views.now)) group.now)) }
{
    let columns = all_elements(alloc, asset, views, group.columns.as_slice())?;
    join_records(alloc, columns.as_slice(), group.count as usize)
}

// The records of so many vertices, joined.
fn join_records(alloc: Global, columns: &[Elements<'_>], count: usize) -> Result<Vec<u8>, NoMemory>
    requires { All (HasItems count) columns.now }
    ensures { IfOk result (λ v. v.items ≡ flat_map (record_at columns.now) (range_with_len 0 count)) }
{
    let mut passed = vec![in alloc; 0usize; columns.len()]?;
    let mut bytes = Vec::with_capacity(alloc, records_room(columns, count))?;
    push_records(&mut bytes, columns, &mut passed, count)?;
    Ok(bytes)
}

// Puts so many records behind the bytes. Each column has its count of indices that were passed.
fn push_records(
    bytes: &mut Vec<u8>,
    columns: &[Elements<'_>],
    passed: &mut [usize],
    count: usize,
) -> Result<(), NoMemory>
    requires items { All (HasItems count) columns.now }
    requires passed { length passed.old ≡ length columns.now }
    ensures { OnOk result (bytes.new.items ≡ bytes.old.items ++ flat_map (record_at columns.now) (range_with_len 0 count)) }
{
    'vertices: for at in 0..count {
        push_record(bytes, columns, passed, at)?;
    }
    Ok(())
}

// How many bytes so many records have, each as long as the first, where a number can say it.
fn records_room(columns: &[Elements<'_>], count: usize) -> usize
    requires { All (HasItems count) columns.now }
    ensures { length (record_at columns.now 0) * count < 2 ^ 64 → result ≡ length (record_at columns.now 0) * count }
{
    if count == 0 {
        return 0;
    }
    let mut size: usize = 0;
    'columns: for column in 0..columns.len() {
        size = size.saturating_add(columns[column].at(0).len());
    }
    size.saturating_mul(count)
}

// Puts element `at` of each column behind the bytes.
fn push_record(
    bytes: &mut Vec<u8>,
    columns: &[Elements<'_>],
    passed: &mut [usize],
    at: usize,
) -> Result<(), NoMemory>
    requires items { All (HasItem at) columns.now }
    requires passed { length passed.old ≡ length columns.now }
    ensures { OnOk result (bytes.new.items ≡ bytes.old.items ++ record_at columns.now at) }
{
    'columns: for column in 0..columns.len() {
        let item = columns[column].at_next(at, &mut passed[column]);
        bytes.extend_from_slice(item)?;
    }
    Ok(())
}

/// The elements of each of these accessors that is there and has no `sparse` but a resolvable one.
pub(crate) fn all_elements<'a, V: ViewBytes>(
    alloc: Global,
    asset: &Asset<'_>,
    views: &'a V,
    numbers: &[u32],
) -> Result<Vec<Elements<'a>>, NoMemory>
    requires views { HasEvery asset.now.views (V.views views.now) }
    requires sound { All (IsSound asset.now.views) asset.now.accessors }
    ensures { IfOk result (λ v. v.items ≡ filter_map (resolved_at asset.now (contents_of (V.views views.now))) numbers.now) }
{
    let mut all = Vec::new(alloc);
    'numbers: for at in 0..numbers.len() {
        if let Some(elements) = elements(asset, views, numbers[at]) {
            all.push(elements)?;
        }
    }
    Ok(all)
}

// The elements of an accessor, where it is there and they are known.
fn elements<'a, V: ViewBytes>(asset: &Asset<'_>, views: &'a V, at: u32) -> Option<Elements<'a>>
    requires views { HasEvery asset.now.views (V.views views.now) }
    requires sound { All (IsSound asset.now.views) asset.now.accessors }
    ensures { result ≡ resolved_at asset.now (contents_of (V.views views.now)) at }
{
    let place = at as usize;
    if place < asset.accessors().len() {
        resolve(asset, views, place)
    } else {
        None
    }
}
