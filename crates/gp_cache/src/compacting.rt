// A list's own vertices, which have places of their own.
ghost use Rattle.std.specs.Prelude.{◌≡◌, ◌<◌, ◌≤◌, ◌^◌, map, length, slice_index, IfOk, All, Contains};
ghost use Rattle.std.specs.List.Sorted.{IsStrictlyIncreasing};
ghost use Rattle.gp_cache.specs.Own.{Own, Ranks};

use gp_host::NoMemory;
use std::alloc::Global;

/// The vertices of the list and vertex 0, rising.
pub(crate) fn own_vertices(alloc: Global, list: &[u32]) -> Result<Vec<u32>, NoMemory>
    requires few { length list.now < 2 ^ 32 }
    ensures { IfOk result (λ own. Own list.now own.items) }
{
    let mut own = Vec::with_capacity(alloc, list.len() + 1)?;
    own.push(0)?;
    own.extend_from_slice(list)?;
    own.sort_unstable();
    own.dedup();
    Ok(own)
}

/// The place of each corner's vertex among these.
pub(crate) fn corner_ranks(alloc: Global, list: &[u32], own: &[u32]) -> Result<Vec<u32>, NoMemory>
    requires few { length own.now < 2 ^ 32 }
    requires own { Own list.now own.now }
    ensures { IfOk result (λ ranks. Ranks own.now list.now ranks.items) }
{
    let mut ranks = Vec::with_capacity(alloc, list.len())?;
    'corners: for at in 0..list.len() {
        ranks.push(rank(own, list[at]))?;
    }
    Ok(ranks)
}

// The place of the vertex among these.
fn rank(own: &[u32], vertex: u32) -> u32
    requires few { length own.now < 2 ^ 32 }
    requires rises { IsStrictlyIncreasing own.now }
    requires stands { Contains own.now vertex }
    ensures within { result < length own.now }
    ensures is { slice_index own.now result ≡ vertex }
{
    match own.binary_search(&vertex) {
        Ok(place) => place as u32,
        Err(_) => unreachable!(),
    }
}

/// Gives each corner the vertex at its place among these.
pub(crate) fn put_back(own: &[u32], order: &mut [u32])
    requires { All (λ place. place < length own.now) order.old }
    ensures { order.new ≡ map (slice_index own.now) order.old }
{
    'corners: for at in 0..order.len() {
        order[at] = own[order[at] as usize];
    }
}
