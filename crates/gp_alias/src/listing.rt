// Finding the lists of a group.
ghost use Rattle.std.specs.Prelude.{◌≡◌, ◌++◌, ◌+◌, ◌<◌, ◌^◌, if◌then◌else◌, true, map, length, IfOk, OnOk};
ghost use Rattle.std.specs.List.{All, concat, range_with_len};
ghost use Rattle.gp_elements.specs.Elements.{number_of};
ghost use Rattle.gp_elements.specs.Held.{HasEvery, contents_of, IsSound};
ghost use Rattle.gp_alias.specs.Movable.{is_movable};
ghost use Rattle.gp_alias.specs.Records.{lists, ends_from, AreNumbers};
ghost use Rattle.gp_alias.specs.Rooms.{lengths, bare_corners};

use crate::corner_lists::Corners;
use crate::gathering::all_elements;
use crate::group::Group;
use crate::numbers::number_of;
use gp_asset::{Asset, ViewBytes};
use gp_elements::Elements;
use gp_host::{NoMemory, Numbers};
use std::alloc::Global;

/// The lists of a group that may move, joined, and where each ends. The asset was read and its views are all held.
/// It fails only for want of memory.
pub fn corners<V: ViewBytes>(
    alloc: Global,
    asset: &Asset<'_>,
    views: &V,
    group: &Group,
) -> Result<Corners, NoMemory>
    requires views { HasEvery asset.now.views (V.views views.now) }
    requires sound { All (IsSound asset.now.views) asset.now.accessors }
    requires movable { is_movable asset.now (contents_of (V.views views.now)) group.now ≡ true }
    ensures joined { IfOk result (λ c. c.joined ≡ concat (lists asset.now (contents_of (V.views views.now)) group.now)) }
    ensures ends { IfOk result (λ c. c.ends ≡ ends_from 0 (lists asset.now (contents_of (V.views views.now)) group.now)) }
{
    let all = all_elements(alloc, asset, views, group.lists.as_slice())?;
    let room = corners_room(all.as_slice(), group);
    let mut joined = Vec::with_capacity(alloc, room)?;
    let mut ends = Vec::with_capacity(alloc, ends_room(all.len(), group))?;
    push_lists(&mut joined, &mut ends, all.as_slice())?;
    if group.bare {
        push_vertices(&mut joined, group.count)?;
        ends.push(number_of(joined.len())?)?;
    }
    Ok(Corners {
        joined: Numbers::from_vec(joined),
        ends: Numbers::from_vec(ends),
    })
}

// How many corners these lists and those of a group without indices have, where a number can say it.
fn corners_room(lists: &[Elements<'_>], group: &Group) -> usize
    ensures { lengths lists.now + bare_corners group.now < 2 ^ 64 → result ≡ lengths lists.now + bare_corners group.now }
{
    let mut room = if group.bare { group.count as usize } else { 0 };
    'lists: for at in 0..lists.len() {
        room = room.saturating_add(lists[at].len());
    }
    room
}

// How many lists there are with that of primitives without indices, where a number can say it.
fn ends_room(lists: usize, group: &Group) -> usize
    ensures { lists + 1 < 2 ^ 64 → result ≡ (if group.now.bare then lists + 1 else lists) }
{
    if group.bare {
        lists.saturating_add(1)
    } else {
        lists
    }
}

// Puts the numbers of each list behind the others, and its end behind the ends.
fn push_lists(
    joined: &mut Vec<u32>,
    ends: &mut Vec<u32>,
    lists: &[Elements<'_>],
) -> Result<(), NoMemory>
    requires { All AreNumbers lists.now }
    ensures joined { OnOk result (joined.new.items ≡ joined.old.items ++ concat (map (map number_of) lists.now)) }
    ensures ends { OnOk result (ends.new.items ≡ ends.old.items ++ ends_from (length joined.old.items) (map (map number_of) lists.now)) }
{
    'lists: for at in 0..lists.len() {
        push_numbers(joined, &lists[at])?;
        ends.push(number_of(joined.len())?)?;
    }
    Ok(())
}

/// Puts the numbers of a list behind the others.
pub(crate) fn push_numbers(joined: &mut Vec<u32>, list: &Elements<'_>) -> Result<(), NoMemory>
    requires { AreNumbers list.now }
    ensures { OnOk result (joined.new.items ≡ joined.old.items ++ map number_of list.now) }
{
    let mut passed: usize = 0;
    'items: for at in 0..list.len() {
        joined.push(list.next_number(at, &mut passed))?;
    }
    Ok(())
}

/// Puts the numbers of so many vertices behind the others.
pub(crate) fn push_vertices(joined: &mut Vec<u32>, count: u32) -> Result<(), NoMemory>
    ensures { OnOk result (joined.new.items ≡ joined.old.items ++ range_with_len 0 count) }
{
    'vertices: for vertex in 0..count {
        joined.push(vertex)?;
    }
    Ok(())
}
