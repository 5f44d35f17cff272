// Numbers for records.
ghost use Rattle.std.specs.Prelude.{◌≡◌, ◌+◌, ◌/◌, ◌%◌, ◌<◌, ◌≤◌, ◌^◌, All, length, take, drop, IfOk};
ghost use Rattle.std.specs.Cmp.Lexicographic.{slice_cmp};
ghost use Rattle.std.specs.Ordering.{nat_cmp};
ghost use Rattle.std.specs.List.{range_with_len};
ghost use Rattle.std.specs.List.Sorted.{IsPermutation, IsSortedBy};
ghost use Rattle.gp_merge.specs.Records.{records};
ghost use Rattle.gp_compare.specs.Numbered.{NumbersBoth};
ghost use Rattle.gp_compare.specs.Joined.{record_of, is_before, Given};

use gp_host::{NoMemory, Numbers};
use std::alloc::Global;
use std::cmp::Ordering;

/// A number for each record of two rows, below `count`.
#[derive(Drop)]
pub struct Numbering {
    pub first: Numbers,
    pub second: Numbers,
    pub count: u32,
}

/// Numbers the records of this size: two of them, of whichever row, have the same number exactly where they are equal.
pub fn number_records(
    alloc: Global,
    first: &[u8],
    second: &[u8],
    size: usize,
) -> Result<Numbering, NoMemory>
    requires size { 1 ≤ size }
    requires first_whole { length first.now % size ≡ 0 }
    requires second_whole { length second.now % size ≡ 0 }
    requires first_few { length first.now / size ≤ 2 ^ 24 }
    requires second_few { length second.now / size ≤ 2 ^ 24 }
    ensures { IfOk result (λ numbering. NumbersBoth (records size first.now) (records size second.now) numbering) }
{
    let rows = Rows {
        first,
        second,
        size,
        of_first: first.len() / size,
    };
    let total = rows.of_first + second.len() / size;
    let places = sorted_places(alloc, rows, total)?;
    let mut numbers = vec![in alloc; 0; total]?;
    let count = number_places(&mut numbers, &places, rows);
    let of_second = Vec::from_slice(alloc, &numbers[rows.of_first..])?;
    numbers.truncate(rows.of_first);
    Ok(Numbering {
        first: Numbers::from_vec(numbers),
        second: Numbers::from_vec(of_second),
        count,
    })
}

// Two rows of records of one size, and how many the first has.
#[derive(Clone, Copy)]
struct Rows<'a> {
    first: &'a [u8],
    second: &'a [u8],
    size: usize,
    of_first: usize,
}

impl<'a> Rows<'a> {
    // The record at a place: those of the second row have the places behind those of the first.
    fn record(&self, place: u32) -> &'a [u8]
        ensures { result.now ≡ record_of self.now.size self.now.of_first self.now.first.now self.now.second.now place }
    {
        let place = place as usize;
        if place < self.of_first {
            piece(self.first, place.saturating_mul(self.size), self.size)
        } else {
            piece(
                self.second,
                (place - self.of_first).saturating_mul(self.size),
                self.size,
            )
        }
    }

    fn compare(&self, one: u32, other: u32) -> Ordering
        ensures { result ≡ slice_cmp nat_cmp
            (record_of self.now.size self.now.of_first self.now.first.now self.now.second.now one)
            (record_of self.now.size self.now.of_first self.now.first.now self.now.second.now other) }
    {
        self.record(one).cmp(&self.record(other))
    }
}

// So many bytes from one on, or as many as there are.
fn piece(bytes: &[u8], start: usize, size: usize) -> &[u8]
    ensures { result.now ≡ take size (drop start bytes.now) }
{
    let from = start.min(bytes.len());
    let rest = &bytes[from..];
    &rest[..size.min(rest.len())]
}

// The places of both rows, those of lesser records first.
fn sorted_places(alloc: Global, rows: Rows<'_>, total: usize) -> Result<Vec<u32>, NoMemory>
    requires { total ≤ 2 ^ 25 }
    ensures moved { IfOk result (λ places. IsPermutation (range_with_len 0 total) places.items) }
    ensures sorted { IfOk result (λ places. IsSortedBy
        (is_before (record_of rows.entry.size rows.entry.of_first rows.entry.first.now rows.entry.second.now)) places.items) }
{
    let mut places = Vec::with_capacity(alloc, total)?;
    'places: for place in 0..total {
        places.push(place as u32)?;
    }
    places.sort_unstable_by(|one, other| rows.compare(*one, *other));
    Ok(places)
}

// Numbers the records by their first places in this order, and says how many numbers there are.
fn number_places(numbers: &mut [u32], places: &[u32], rows: Rows<'_>) -> u32
    requires few { length places.now ≤ 2 ^ 25 }
    requires within { All (λ place. place < length numbers.old) places.now }
    requires sorted { IsSortedBy
        (is_before (record_of rows.size rows.of_first rows.first.now rows.second.now)) places.now }
    ensures { Given (record_of rows.entry.size rows.entry.of_first rows.entry.first.now rows.entry.second.now) places.now numbers.new result (length places.now) }
{
    let mut count = 0;
    'places: for at in 0..places.len() {
        count = number_place(numbers, count, places, at, rows);
    }
    count
}

// Numbers the record at one place more: as the one before it where they are equal, and else by the next number.
fn number_place(numbers: &mut [u32], count: u32, places: &[u32], at: usize, rows: Rows<'_>) -> u32
    requires few { length places.now ≤ 2 ^ 25 }
    requires within { All (λ place. place < length numbers.old) places.now }
    requires sorted { IsSortedBy
        (is_before (record_of rows.size rows.of_first rows.first.now rows.second.now)) places.now }
    requires at { at < length places.now }
    requires before { Given (record_of rows.size rows.of_first rows.first.now rows.second.now) places.now numbers.old count at }
    ensures { Given (record_of rows.entry.size rows.entry.of_first rows.entry.first.now rows.entry.second.now) places.now numbers.new result (at + 1) }
{
    let place = places[at];
    if at > 0 && rows.record(places[at - 1]) == rows.record(place) {
        numbers[place as usize] = numbers[places[at - 1] as usize];
        return count;
    }
    numbers[place as usize] = count;
    count + 1
}
