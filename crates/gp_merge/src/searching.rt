// A table of the first record of each value. It has a slot for each, at the place where the search for the record begins, or at the
// first place behind it that was empty, from the last place on to the first.
ghost use Rattle.std.specs.Prelude.{◌≡◌, ◌⊎◌, ◌↔◌, ◌/◌, ◌<◌, ◌≤◌, ℕ, IsTrue, Contains, length, slice_index};
ghost use Rattle.gp_merge.specs.Records.{records};
ghost use Rattle.gp_merge.specs.Slots.{empty, Stops, HoldsOneOf, Found, Passed};

// What stands in a slot for no record.
pub const EMPTY: u32 = u32::MAX;

/// The slot of the record that equals this one, or else the empty slot where that belongs.
pub fn find(slots: &[u32], bytes: &[u8], size: usize, wanted: &[u8], start: usize) -> usize
    requires size { 1 ≤ size }
    requires start { start ≤ length slots.now }
    requires held { (i : ℕ) → i < length slots.now → HoldsOneOf (length bytes.now / size) (slice_index slots.now i) }
    requires room { Contains slots.now empty }
    ensures { Found (records size bytes.now) slots.now wanted.now start result }
{
    let behind = probe(slots, bytes, size, wanted, start, slots.len());
    if behind < slots.len() {
        return behind;
    }
    probe(slots, bytes, size, wanted, 0, start)
}

// The first of these slots that is empty or has an equal record, or `to`.
fn probe(slots: &[u32], bytes: &[u8], size: usize, wanted: &[u8], from: usize, to: usize) -> usize
    requires size { 1 ≤ size }
    requires order { from ≤ to }
    requires within { to ≤ length slots.now }
    requires held { (i : ℕ) → i < length slots.now → HoldsOneOf (length bytes.now / size) (slice_index slots.now i) }
    ensures least { from ≤ result }
    ensures most { result ≤ to }
    ensures passed { Passed (records size bytes.now) slots.now wanted.now from result }
    ensures stops { result < to → Stops (records size bytes.now) wanted.now (slice_index slots.now result) }
{
    'slots: for slot in from..to {
        if stops(slots[slot], bytes, size, wanted) {
            return slot;
        }
    }
    to
}

// Whether the search ends at a slot in which this stands.
fn stops(first: u32, bytes: &[u8], size: usize, wanted: &[u8]) -> bool
    requires size { 1 ≤ size }
    requires one { HoldsOneOf (length bytes.now / size) first }
    ensures { IsTrue result ↔ Stops (records size bytes.now) wanted.now first }
{
    if first == EMPTY {
        return true;
    }
    let start = first as usize * size;
    let held = &bytes[start..start + size];
    held == wanted
}
