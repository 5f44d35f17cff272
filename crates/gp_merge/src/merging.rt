// Equal records as one.
ghost use Rattle.std.specs.Prelude.{◌≡◌, ℕ, ◌+◌, ◌*◌, ◌/◌, ◌%◌, ◌≤◌, ◌^◌, length, take, IfOk};
ghost use Rattle.std.specs.List.{concat};
ghost use Rattle.gp_merge.specs.Records.{record_at, records, distinct, numbers};
ghost use Rattle.gp_merge.specs.Placing.{with_record};
ghost use Rattle.gp_merge.specs.Remap.{Merges};

use crate::keyed::Keyed;
use crate::searching::{EMPTY, find};
use gp_host::{NoMemory, Numbers};
use std::alloc::Global;

/// How many distinct records there are, and for each record its place among them, by first sight.
#[derive(Drop)]
pub struct Remap {
    pub count: u32,
    pub places: Numbers,
}

/// The places of the records of this size among the distinct ones.
pub fn merge(alloc: Global, bytes: &[u8], size: usize) -> Result<Remap, NoMemory>
    requires size { 1 ≤ size }
    requires whole { length bytes.now % size ≡ 0 }
    requires few { length bytes.now / size ≤ 2 ^ 24 }
    ensures { IfOk result (λ remap. Merges (records size bytes.now) remap) }
{
    let count = bytes.len() / size;
    let keyed = Keyed::by(bytes);
    let mut slots = vec![in alloc; EMPTY; 2 * count + 1]?;
    let mut places = Vec::with_capacity(alloc, count)?;
    let mut distinct = 0;
    'records: for at in 0..count {
        let wanted = &bytes[at * size..at * size + size];
        let start = keyed.start(wanted, slots.len());
        let slot = find(&slots, bytes, size, wanted, start);
        let first = slots[slot];
        if first == EMPTY {
            slots[slot] = at as u32;
            places.push(distinct)?;
            distinct += 1;
        } else {
            let place = places[first as usize];
            places.push(place)?;
        }
    }
    Ok(Remap {
        count: distinct,
        places: Numbers::from_vec(places),
    })
}

/// Brings the distinct records to the front, in order.
pub fn keep_first(bytes: &mut [u8], size: usize, remap: &Remap)
    requires { Merges (records size bytes.old) remap.now }
    ensures front { take (remap.now.count * size) bytes.new ≡ concat (distinct (records size bytes.old)) }
    ensures length { length bytes.new ≡ length bytes.old }
{
    let mut kept = 0;
    'records: for (at, place) in remap.places.as_slice().iter().enumerate() {
        if *place as usize == kept {
            copy_record(bytes, size, at, kept);
            kept += 1;
        }
    }
}

// Copies a record over one that doesn't stand behind it.
fn copy_record(bytes: &mut [u8], size: usize, from: usize, to: usize)
    requires within { from * size + size ≤ length bytes.old }
    requires order { to ≤ from }
    ensures { bytes.new ≡ with_record size bytes.old to (record_at size bytes.old from) }
{
    let start = from * size;
    bytes.copy_within(start..start + size, to * size);
}
