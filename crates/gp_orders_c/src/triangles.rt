// Triangles in Tipsify's order.
ghost use Rattle.std.specs.Prelude.{◌≡◌, ◌*◌, ◌%◌, ◌^◌, ◌<◌, ◌≤◌, ◌↔◌, ◌==◌, ◌&&◌, All, IsTrue, length, nat_lt, nat_le};
ghost use Rattle.std.specs.List.{list_all};
ghost use Rattle.gp_orders_c.specs.Answers.{Ordered, are_triangles};

use crate::answers::{DONE, NO_MEMORY, NO_SHAPE};
use gp_cache::tipsify;
use gp_host::NoMemory;
use std::alloc::Global;

/// Gives the corners of triangles over vertices below `n` in Tipsify's order, as `gp_cache::tipsify`.
#[unsafe(no_mangle)]
pub extern "C" fn gp_orders_c_tipsify(
    alloc: Global,
    list: &[u32],
    n: usize,
    order: &mut [u32],
) -> u32
    ensures { Ordered (are_triangles list.now n (length order.old)) list.now n result order.old order.new }
{
    if !has_shape(list.len(), n, order.len()) {
        return NO_SHAPE;
    }
    if !are_below(list, n) {
        return NO_SHAPE;
    }
    match tipsify(alloc, list, n) {
        Ok(corners) => {
            order.copy_from_slice(&corners);
            DONE
        }
        Err(NoMemory) => NO_MEMORY,
    }
}

// Whether so many corners are triangles that the order takes, and as many as there is room for.
fn has_shape(len: usize, n: usize, room: usize) -> bool
    ensures value { result ≡ (len % 3 == 0 && nat_le len (3 * 2 ^ 25) && nat_le n (2 ^ 24) && len == room) }
    ensures told { IsTrue result ↔ ((len % 3 ≡ 0) × (len ≤ 3 * 2 ^ 25) × (n ≤ 2 ^ 24) × (len ≡ room)) }
{
    len % 3 == 0 && len <= 3 << 25 && n <= 1 << 24 && len == room
}

// Whether all vertices are below the number.
fn are_below(list: &[u32], n: usize) -> bool
    ensures value { result ≡ list_all (λ vertex. nat_lt vertex n) list.now }
    ensures told { IsTrue result ↔ All (λ vertex. vertex < n) list.now }
{
    list.iter().all(|vertex| (*vertex as usize) < n)
}
