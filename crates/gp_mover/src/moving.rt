// Moving a group.
ghost use Rattle.std.specs.Prelude.{◌≡◌, ℕ, ◌+◌, ◌*◌, ◌/◌, ◌%◌, ◌^◌, ◌<◌, ◌≤◌, true, List, map, length, slice_index, IfOk, OnOk};
ghost use Rattle.std.specs.List.{All, concat};
ghost use Rattle.gp_elements.specs.Held.{HasEvery, contents_of, IsSound};
ghost use Rattle.gp_alias.specs.Movable.{is_movable};
ghost use Rattle.gp_cache.specs.Tipsify.{better};
ghost use Rattle.gp_merge.specs.Records.{record_at, records, distinct};
ghost use Rattle.gp_merge.specs.Order.{first_seen, places_in};
ghost use Rattle.gp_merge.specs.Remap.{Merges};
ghost use Rattle.gp_moving.specs.Ordered.{ordered, chosen_by};
ghost use Rattle.gp_mover.specs.MovedParts.{moved_group, record_size};
ghost use Rattle.gp_mover.specs.Standing.{between, parts_of, AreJoined, Reordered, IsWhole};

use crate::listing::order_lists;
use crate::moved::MovedGroup;
use gp_alias::{Corners, Group, corners, gather};
use gp_asset::{Asset, ViewBytes};
use gp_host::{Bytes, NoMemory, Numbers};
use gp_merge::{Remap, first_seen, keep_first, merge, move_records, renumber};
use std::alloc::Global;

/// Moves a group that may move and has columns. The asset was read and its views are all held. It fails only for want of memory.
pub fn move_group<V: ViewBytes>(
    alloc: Global,
    asset: &Asset<'_>,
    views: &V,
    group: Group,
) -> Result<MovedGroup, NoMemory>
    requires views { HasEvery asset.now.views (V.views views.now) }
    requires sound { All (IsSound asset.now.views) asset.now.accessors }
    requires movable { is_movable asset.now (contents_of (V.views views.now)) group ≡ true }
    requires columns { 0 < length group.columns }
    ensures parts { IfOk result (λ m. parts_of m ≡ moved_group asset.now (contents_of (V.views views.now)) group) }
    ensures group { IfOk result (λ m. m.group ≡ group) }
    ensures size { IfOk result (λ m. m.size ≡ record_size asset.now group.columns) }
    ensures whole { IfOk result (λ m. IsWhole m) }
{
    let mut bytes = gather(alloc, asset, views, &group)?;
    let found = corners(alloc, asset, views, &group)?;
    let size = bytes.len() / group.count as usize;
    let ends = found.ends;
    let mut joined = found.joined.into_vec();
    reorder(alloc, &mut bytes, size, &mut joined, ends.as_slice())?;
    Ok(MovedGroup {
        group,
        size,
        records: Bytes::from_vec(bytes),
        corners: Corners {
            joined: Numbers::from_vec(joined),
            ends,
        },
    })
}

// Puts records and lists over their numbers into the new order.
fn reorder(
    alloc: Global,
    bytes: &mut Vec<u8>,
    size: usize,
    joined: &mut [u32],
    ends: &[u32],
) -> Result<(), NoMemory>
    requires size { 1 ≤ size }
    requires whole { length bytes.old.items % size ≡ 0 }
    requires few { length bytes.old.items / size ≤ 2 ^ 24 }
    requires joined { AreJoined (length (records size bytes.old.items)) ends.now joined.old (between 0 ends.now joined.old) }
    ensures { let all = records size bytes.old.items in
        let lists = between 0 ends.now joined.old in
        let new = ordered all (chosen_by better all lists) in
        OnOk result (Reordered size bytes.new.items ends.now joined.new new) }
{
    let remap = merge_records(alloc, bytes, size)?;
    let count = remap.count as usize;
    renumber(joined, remap.places.as_slice());
    order_lists(alloc, joined, ends, count)?;
    place(alloc, bytes, size, joined, count)?;
    Ok(())
}

// Leaves the distinct records alone, in order.
fn merge_records(alloc: Global, bytes: &mut Vec<u8>, size: usize) -> Result<Remap, NoMemory>
    requires size { 1 ≤ size }
    requires whole { length bytes.old.items % size ≡ 0 }
    requires few { length bytes.old.items / size ≤ 2 ^ 24 }
    ensures remap { IfOk result (λ remap. Merges (records size bytes.old.items) remap) }
    ensures left { OnOk result (bytes.new.items ≡ concat (distinct (records size bytes.old.items))) }
{
    let remap = merge(alloc, bytes, size)?;
    keep_first(bytes, size, &remap);
    bytes.truncate(remap.count as usize * size);
    Ok(remap)
}

// Puts so many records into the order in which the lists have them first, and renumbers the lists.
fn place(
    alloc: Global,
    bytes: &mut [u8],
    size: usize,
    joined: &mut [u32],
    count: usize,
) -> Result<(), NoMemory>
    requires size { 1 ≤ size }
    requires few { count ≤ 2 ^ 24 }
    requires whole { length bytes.old ≡ size * count }
    requires below { All (λ number. number < count) joined.old }
    ensures joined { OnOk result (joined.new ≡ map (slice_index (places_in (first_seen joined.old count) count)) joined.old) }
    ensures moved { OnOk result ((i : ℕ) → i < count
        → record_at size bytes.new (slice_index (places_in (first_seen joined.old count) count) i) ≡ record_at size bytes.old i) }
    ensures long { length bytes.new ≡ length bytes.old }
{
    let mut places = first_seen(alloc, joined, count)?;
    renumber(joined, &places);
    move_records(bytes, size, &mut places);
    Ok(())
}
