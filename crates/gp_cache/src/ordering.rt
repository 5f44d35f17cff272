// Tipsify's order, and the better one.
ghost use Rattle.std.specs.Prelude.{◌≡◌, ◌<◌, ◌≤◌, ◌*◌, ◌^◌, ◌%◌, [], length, nat_lt, All, IfOk, OnOk, OnErr};
ghost use Rattle.gp_cache.specs.Adjacency.{Adjacent};
ghost use Rattle.gp_cache.specs.Misses.{misses};
ghost use Rattle.gp_cache.specs.Tipsify.{tipsify, better, at_first};
ghost use Rattle.gp_cache.specs.Triangles.{triples};
ghost use Rattle.gp_cache.specs.Tables.{Proper, Stands, state_of};

use crate::adjoining::{Adjacency, adjoin};
use crate::compacting::{corner_ranks, own_vertices, put_back};
use crate::counting::misses;
use crate::emitting::Progress;
use gp_host::NoMemory;
use std::alloc::Global;

/// The corners of the list's triangles in Tipsify's order, over vertices below `n`. Where `n` is more than the list's length,
/// only the list's own vertices get tables, so that the time taken doesn't grow with `n`.
pub fn tipsify(alloc: Global, list: &[u32], n: usize) -> Result<Vec<u32>, NoMemory>
    requires whole { length list.now % 3 ≡ 0 }
    requires few { length list.now ≤ 3 * 2 ^ 25 }
    requires below { All (λ v. v < n) list.now }
    requires vertices { n ≤ 2 ^ 24 }
    ensures { IfOk result (λ order. order.items ≡ tipsify list.now n) }
{
    if n <= list.len() {
        return order_over(alloc, list, n);
    }
    let own = own_vertices(alloc, list)?;
    let ranks = corner_ranks(alloc, list, &own)?;
    let mut order = order_over(alloc, &ranks, own.len())?;
    put_back(&own, &mut order);
    Ok(order)
}

// The same order by tables of `n` vertices.
fn order_over(alloc: Global, list: &[u32], n: usize) -> Result<Vec<u32>, NoMemory>
    requires { Proper list.now n }
    ensures { IfOk result (λ order. order.items ≡ tipsify list.now n) }
{
    if list.is_empty() {
        return Ok(Vec::new(alloc));
    }
    let adjacency = adjoin(alloc, list, n)?;
    let mut progress = Progress::new(alloc, list, n)?;
    emit_fans(&mut progress, list, &adjacency)?;
    Ok(progress.order)
}

// Emits fan after fan, the first one round vertex 0, until all triangles are emitted.
fn emit_fans(progress: &mut Progress, list: &[u32], adjacency: &Adjacency) -> Result<(), NoMemory>
    requires some { 0 < length list.now }
    requires stands { Stands list.now (length progress.old.live.items) progress.old }
    requires first { state_of list.now progress.old ≡ at_first (triples list.now) }
    requires empty { progress.old.order.items ≡ [] }
    requires adjacent { Adjacent list.now (length progress.old.live.items) adjacency.now }
    ensures { OnOk result (progress.new.order.items ≡ tipsify list.now (length progress.old.live.items)) }
{
    let mut vertex = 0;
    'fans: for _ in 0..list.len() / 3 + 1 {
        let from = progress.order.len();
        progress.fan(list, adjacency, vertex)?;
        match progress.next_vertex(from) {
            Some(next) => vertex = next,
            None => return Ok(()),
        }
    }
    Ok(())
}

/// Brings the list's triangles into Tipsify's order, over vertices below `n`, where that has fewer misses. Whether it has.
pub fn better_order(alloc: Global, list: &mut [u32], n: usize) -> Result<bool, NoMemory>
    requires whole { length list.old % 3 ≡ 0 }
    requires few { length list.old ≤ 3 * 2 ^ 25 }
    requires below { All (λ v. v < n) list.old }
    requires vertices { n ≤ 2 ^ 24 }
    ensures list { OnOk result (list.new ≡ better list.old n) }
    ensures answer { IfOk result (λ fewer. fewer ≡ nat_lt (misses (tipsify list.old n)) (misses list.old)) }
    ensures unchanged { OnErr result (list.new ≡ list.old) }
{
    let order = tipsify(alloc, list, n)?;
    let fewer = misses(&order) < misses(list);
    if fewer {
        list.copy_from_slice(&order);
    }
    Ok(fewer)
}
