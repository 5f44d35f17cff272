// Numbers of 1, 2 or 4 bytes, the lowest byte first.
ghost use Rattle.std.specs.Prelude.{◌≡◌, ◌↔◌, ◌<◌, ◌+◌, ◌^◌, length, map, slice_get, Some, true, All};
ghost use Rattle.gp_elements.specs.Elements.{number_of, IsNumber};
ghost use Rattle.gp_elements.specs.Resolving.{is_rising, is_resolvable, place_of};
ghost use Rattle.gp_elements.specs.Parting.{PartAt};

use crate::slices::Slices;
use byteorder::{ByteOrder, LittleEndian};

/// The number in the bytes of a scalar.
pub(crate) fn number(item: &[u8]) -> u32
    requires { IsNumber item.now }
    ensures { result ≡ number_of item.now }
{
    match item.len() {
        1 => item[0] as u32,
        2 => LittleEndian::read_u16(item) as u32,
        _ => LittleEndian::read_u32(item),
    }
}

/// Whether these indices strictly rise, each below the count.
pub(crate) fn are_resolvable(indices: &Slices<'_>, count: usize) -> bool
    requires { All IsNumber indices.now }
    ensures { result ≡ is_resolvable count (map number_of indices.now) }
{
    let mut least: usize = 0;
    'indices: for at in 0..indices.len() {
        let index = index_at(indices, at);
        if index < least || count <= index {
            return false;
        }
        least = index + 1;
    }
    true
}

/// The place of a number among indices that strictly rise. `passed` says how many of them are below it: where that is so, two looks
/// confirm it, else they are sought by halves. It then says how many are no higher, as many as are below the next number.
pub(crate) fn place_of(indices: &Slices<'_>, number: usize, passed: &mut usize) -> Option<usize>
    requires numbers { All IsNumber indices.now }
    requires rising { is_rising (map number_of indices.now) ≡ true }
    ensures place { result ≡ place_of (map number_of indices.now) number }
    ensures passed { PartAt (map number_of indices.now) (number + 1) passed.new }
{
    let place = part(indices, number, *passed);
    *passed = place;
    if !has_at(indices, number, place) {
        return None;
    }
    *passed = place + 1;
    Some(place)
}

// How many of these indices, which strictly rise, are below a number: so many, where that is right.
fn part(indices: &Slices<'_>, number: usize, count: usize) -> usize
    requires numbers { All IsNumber indices.now }
    requires rising { is_rising (map number_of indices.now) ≡ true }
    ensures { PartAt (map number_of indices.now) number result }
{
    if part_at(indices, number, count) {
        count
    } else {
        count_below(indices, number)
    }
}

// Whether so many of these indices, which strictly rise, are below a number, and no more.
fn part_at(indices: &Slices<'_>, number: usize, count: usize) -> bool
    requires numbers { All IsNumber indices.now }
    requires rising { is_rising (map number_of indices.now) ≡ true }
    ensures { result ≡ true ↔ PartAt (map number_of indices.now) number count }
{
    if indices.len() < count {
        return false;
    }
    if 0 < count && number <= index_at(indices, count - 1) {
        return false;
    }
    count == indices.len() || number <= index_at(indices, count)
}

// How many of these indices, which strictly rise, are below a number.
fn count_below(indices: &Slices<'_>, number: usize) -> usize
    requires numbers { All IsNumber indices.now }
    requires rising { is_rising (map number_of indices.now) ≡ true }
    ensures { PartAt (map number_of indices.now) number result }
{
    let mut low: usize = 0;
    let mut high: usize = indices.len();
    'halves: while low < high {
        let middle = low + (high - low) / 2;
        if index_at(indices, middle) < number {
            low = middle + 1;
        } else {
            high = middle;
        }
    }
    low
}

// Whether the number stands at this place.
fn has_at(indices: &Slices<'_>, number: usize, place: usize) -> bool
    requires { All IsNumber indices.now }
    ensures here { result ≡ true ↔ slice_get (map number_of indices.now) place ≡ Some number }
    ensures room { result ≡ true → place + 1 < 2 ^ 64 }
{
    place < indices.len() && index_at(indices, place) == number
}

// Index `at`.
fn index_at(indices: &Slices<'_>, at: usize) -> usize
    requires numbers { All IsNumber indices.now }
    requires within { at < length indices.now }
    ensures value { slice_get (map number_of indices.now) at ≡ Some result }
    ensures small { result < 2 ^ 32 }
{
    number(indices.at(at)) as usize
}
