// The bytes of the buffer views that are made for a moved group.
ghost use Rattle.std.specs.Prelude.{◌≡◌, ℕ, ◌+◌, ◌^◌, ◌<◌, ◌≤◌, ◌++◌, nat_le, if◌then◌else◌, List, Some, take, sum_by, flat_map, length, slice_get, slice_index, slice_index_or, [], IfOk, OnOk};
ghost use Rattle.std.specs.List.{All, concat};
ghost use Rattle.gp_rules.specs.declared.accessing.Accessor.{Accessor as AnyAccessor};
ghost use Rattle.gp_asset.specs.Contents.{part};
ghost use Rattle.gp_alias.specs.Records.{ends_from};
ghost use Rattle.gp_groups.specs.Sequence.{le_bytes};
ghost use Rattle.gp_layout.specs.Row.{zero_padded};
ghost use Rattle.gp_merge.specs.Records.{records};
ghost use Rattle.gp_mover.specs.MovedParts.{record_size};
ghost use Rattle.gp_mover.specs.MadeBytes.{column_contents, list_contents, size_at};
ghost use Rattle.gp_mover.specs.Standing.{parts_of, IsWhole};

use crate::moved::MovedGroup;
use gp_asset::Asset;
use gp_host::NoMemory;
use gp_rules::{Accessor, element_size};
use std::alloc::Global;

// The most records whose numbers have two bytes each.
const MOST_NARROW: usize = 65535;

/// The elements of column `at` in the order of the records, each with zeros behind it up to a multiple of 4 bytes. The columns are
/// accessors of the asset.
pub fn column_bytes(
    alloc: Global,
    asset: &Asset<'_>,
    moved: &MovedGroup,
    at: usize,
) -> Result<Vec<u8>, NoMemory>
    requires within { at < length moved.now.group.columns }
    requires known { All (λ k. k < length asset.now.accessors) moved.now.group.columns }
    requires size { moved.now.size ≡ record_size asset.now moved.now.group.columns }
    requires whole { IsWhole moved.now }
    ensures { (accessor : AnyAccessor) → slice_get asset.now.accessors (slice_index moved.now.group.columns at) ≡ Some accessor
        → IfOk result (λ v. v.items ≡ column_contents asset.now (parts_of moved.now) at accessor) }
{
    let columns = moved.group.columns.as_slice();
    let start = offset_of(asset.accessors(), columns, at, moved.size);
    let width = size_at(asset.accessors(), columns[at]);
    join_parts(alloc, moved.records.as_slice(), moved.size, start, width)
}

// The bytes of the columns before this one, of which there are no more than `most`.
fn offset_of(accessors: &[Accessor], columns: &[u32], column: usize, most: usize) -> usize
    requires within { column ≤ length columns.now }
    requires fits { sum_by (size_at accessors.now) columns.now ≤ most }
    ensures { result ≡ sum_by (size_at accessors.now) (take column columns.now) }
{
    let mut offset = 0;
    'columns: for at in 0..column {
        offset += size_at(accessors, columns[at]);
    }
    offset
}

// The bytes of an element of an accessor, 0 where it isn't there.
fn size_at(accessors: &[Accessor], at: u32) -> usize
    ensures { result ≡ size_at accessors.now at }
{
    match accessors.get(at as usize) {
        Some(accessor) => element_size(accessor.component, accessor.shape) as usize,
        None => 0,
    }
}

// A part of each record, padded with zeros.
fn join_parts(
    alloc: Global,
    bytes: &[u8],
    size: usize,
    start: usize,
    width: usize,
) -> Result<Vec<u8>, NoMemory>
    requires size { 1 ≤ size }
    requires within { start + width ≤ size }
    ensures { IfOk result (λ v. v.items ≡ flat_map (λ r. zero_padded (part r start width)) (records size bytes.now)) }
{
    let mut joined = Vec::new(alloc);
    'records: for at in 0..bytes.len() / size {
        let from = at * size + start;
        push_padded(&mut joined, &bytes[from..from + width])?;
    }
    Ok(joined)
}

// Puts a part behind bytes, and zeros up to a multiple of 4.
fn push_padded(bytes: &mut Vec<u8>, part: &[u8]) -> Result<(), NoMemory>
    ensures { OnOk result (bytes.new.items ≡ bytes.old.items ++ zero_padded part.now) }
{
    bytes.extend_from_slice(part)?;
    let past = part.len() % 4;
    if past > 0 {
        bytes.resize(bytes.len() + (4 - past), 0)?;
    }
    Ok(())
}

/// The numbers of list `at`, the lowest byte first: two bytes each where there are at most 65,535 records, else four.
pub fn list_bytes(alloc: Global, moved: &MovedGroup, at: usize) -> Result<Vec<u8>, NoMemory>
    requires whole { IsWhole moved.now }
    requires within { at < length moved.now.corners.ends }
    ensures { IfOk result (λ v. v.items ≡ list_contents (parts_of moved.now) (slice_index_or (parts_of moved.now).ordered at [])) }
{
    let ends = moved.corners.ends.as_slice();
    let start = start_of(ends, at);
    let list = &moved.corners.joined.as_slice()[start..ends[at] as usize];
    let count = moved.records.as_slice().len() / moved.size;
    number_bytes(alloc, list, width_of(count))
}

// Where list `at` begins.
fn start_of(ends: &[u32], at: usize) -> usize
    requires { at < length ends.now }
    ensures begins { (lists : List (List ℕ)) → ends.now ≡ ends_from 0 lists → result ≡ length (concat (take at lists)) }
    ensures fits { result < 2 ^ 32 }
{
    if at == 0 {
        return 0;
    }
    ends[at - 1] as usize
}

// The bytes of a number, where there are so many records.
fn width_of(count: usize) -> usize
    ensures { result ≡ (if nat_le count 65535 then 2 else 4) }
{
    if count <= MOST_NARROW { 2 } else { 4 }
}

// The numbers of a list in so many bytes each.
fn number_bytes(alloc: Global, list: &[u32], width: usize) -> Result<Vec<u8>, NoMemory>
    ensures { IfOk result (λ v. v.items ≡ flat_map (le_bytes width) list.now) }
{
    let mut bytes = Vec::new(alloc);
    'numbers: for at in 0..list.len() {
        push_number(&mut bytes, list[at], width)?;
    }
    Ok(bytes)
}

// Puts a number in so many bytes behind bytes.
fn push_number(bytes: &mut Vec<u8>, number: u32, width: usize) -> Result<(), NoMemory>
    ensures { OnOk result (bytes.new.items ≡ bytes.old.items ++ le_bytes width number) }
{
    let mut rest = number;
    'digits: for at in 0..width {
        bytes.push((rest % 256) as u8)?;
        rest /= 256;
    }
    Ok(())
}
