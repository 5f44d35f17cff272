// The lists of a group, each in a better order.
ghost use Rattle.std.specs.Prelude.{◌≡◌, ◌+◌, ◌*◌, ◌^◌, ◌≤◌, map, OnOk};
ghost use Rattle.std.specs.List.{concat};
ghost use Rattle.gp_cache.specs.Tipsify.{better};
ghost use Rattle.gp_mover.specs.Standing.{between, AreJoined};

use gp_cache::better_order;
use gp_host::NoMemory;
use std::alloc::Global;

/// Puts the triangles of each list into a better order. The lists are joined and end at these places.
pub(crate) fn order_lists(
    alloc: Global,
    joined: &mut [u32],
    ends: &[u32],
    count: usize,
) -> Result<(), NoMemory>
    requires few { count ≤ 2 ^ 24 }
    requires joined { AreJoined count ends.now joined.old (between 0 ends.now joined.old) }
    ensures { OnOk result (joined.new ≡ concat (map (λ list. better list count) (between 0 ends.now joined.old))) }
{
    let mut start = 0;
    'lists: for at in 0..ends.len() {
        let end = ends[at] as usize;
        better_order(alloc, &mut joined[start..end], count)?;
        start = end;
    }
    Ok(())
}
