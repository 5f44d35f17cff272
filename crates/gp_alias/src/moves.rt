// Whether a group moves.
ghost use Rattle.std.specs.Prelude.{◌≡◌, ◌+◌, ◌*◌, ◌^◌, nat_le, sum_by, if◌then◌else◌};
ghost use Rattle.std.specs.List.{All};
ghost use Rattle.gp_alias.specs.Movable.{are_whole};
ghost use Rattle.gp_alias.specs.Groups.{count_at};
ghost use Rattle.gp_elements.specs.Held.{HasEvery, contents_of, IsSound};
ghost use Rattle.gp_alias.specs.Users.{is_movable_by};

use crate::group::Group;
use crate::movable::{are_alone, are_columns, are_index_lists, have_attributes};
use crate::usage::Users;
use gp_asset::{Asset, ViewBytes};
use gp_rules::Accessor;

// The most vertices of a group that moves.
const MOST_VERTICES: u32 = 1 << 24;
// The most corners of a group that moves.
const MOST_CORNERS: u64 = 3 << 25;

/// Whether a group moves, by its number and the users of accessors. Values of indices are read last, and so only of lists
/// that no other group uses.
#[tactic(auto, unfolding(crate::specs::Users::is_movable_by))]
pub(crate) fn is_movable<V: ViewBytes>(
    asset: &Asset<'_>,
    views: &V,
    vertex_users: &[Users],
    corner_users: &[Users],
    number: usize,
    group: &Group,
) -> bool
    requires views { HasEvery asset.now.views (V.views views.now) }
    requires sound { All (IsSound asset.now.views) asset.now.accessors }
    ensures { result ≡ is_movable_by asset.now (contents_of (V.views views.now)) vertex_users.now corner_users.now number group.now }
{
    let columns = group.columns.as_slice();
    let lists = group.lists.as_slice();
    asset.is_closed()
        && have_attributes(asset.primitives(), group.primitives.as_slice())
        && are_columns(asset, views, columns, group.count)
        && group.count <= MOST_VERTICES
        && are_alone(vertex_users, number, columns)
        && are_alone(corner_users, number, lists)
        && are_whole(group)
        && are_few_corners(asset.accessors(), lists, group)
        && are_index_lists(asset, views, lists, group.count)
}

fn are_whole(group: &Group) -> bool
    ensures { result ≡ are_whole group.now }
{
    !group.bare || group.count % 3 == 0
}

/// Whether all lists together have no more than the most corners.
pub(crate) fn are_few_corners(accessors: &[Accessor], lists: &[u32], group: &Group) -> bool
    ensures { result ≡ nat_le (sum_by (count_at accessors.now) lists.now + (if group.now.bare then group.now.count else 0)) (3 * 2 ^ 25) }
{
    let mut corners = if group.bare { group.count as u64 } else { 0 };
    'lists: for at in 0..lists.len() {
        if corners > MOST_CORNERS {
            return false;
        }
        corners += count_at(accessors, lists[at]) as u64;
    }
    corners <= MOST_CORNERS
}

/// How many elements an accessor has, 0 where it is not there.
pub(crate) fn count_at(accessors: &[Accessor], at: u32) -> u32
    ensures { result ≡ count_at accessors.now at }
{
    match accessors.get(at as usize) {
        Some(accessor) => accessor.count,
        None => 0,
    }
}
