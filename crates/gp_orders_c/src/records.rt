// Equal records as one.
ghost use Rattle.std.specs.Prelude.{◌≡◌, ◌/◌, ◌%◌, ◌^◌, ◌≤◌, ◌↔◌, IsTrue, length};
ghost use Rattle.gp_orders_c.specs.Answers.{Merged, are_records};

use crate::answers::{DONE, NO_MEMORY, NO_SHAPE};
use gp_host::NoMemory;
use gp_merge::merge;
use std::alloc::Global;

/// Tells how many records of this size are distinct, and the place of each among them, as `gp_merge::merge`.
#[unsafe(no_mangle)]
pub extern "C" fn gp_orders_c_merge(
    alloc: Global,
    bytes: &[u8],
    size: usize,
    places: &mut [u32],
    count: &mut u32,
) -> u32
    ensures { Merged (are_records (length bytes.now) size (length places.old)) size bytes.now result count.old count.new places.old places.new }
{
    if !has_shape(bytes.len(), size, places.len()) {
        return NO_SHAPE;
    }
    match merge(alloc, bytes, size) {
        Ok(remap) => {
            places.copy_from_slice(remap.places.as_slice());
            *count = remap.count;
            DONE
        }
        Err(NoMemory) => NO_MEMORY,
    }
}

// Whether so many bytes are records of this size, and as many as there is room for.
fn has_shape(len: usize, size: usize, room: usize) -> bool
    ensures value { result ≡ are_records len size room }
    ensures told { IsTrue result ↔ ((1 ≤ size) × (len % size ≡ 0) × (len / size ≤ 2 ^ 24) × (len / size ≡ room)) }
{
    size >= 1 && len % size == 0 && len / size <= 1 << 24 && len / size == room
}
