// Of numbered entries the first for each number.
ghost use Rattle.std.specs.Prelude.{◌≡◌, ◌<◌, length, slice_get, slice_set, Some, IfOk};
ghost use Rattle.gp_moves.specs.Firsts.{first_values};

use gp_host::NoMemory;
use std::alloc::Global;

/// A value under a number.
#[derive(Clone, Copy, Debug, PartialEq, Eq)]
pub struct Entry {
    /// The number.
    pub number: u32,
    /// The value.
    pub value: u32,
}

/// Of each number below a count the value of the first entry with it, none where there is no such entry.
pub fn first_values(
    alloc: Global,
    entries: &[Entry],
    count: usize,
) -> Result<Vec<Option<u32>>, NoMemory>
    ensures { IfOk result (λ v. v.items ≡ first_values entries.now count) }
{
    let mut values = vec![in alloc; None; count]?;
    'entries: for done in 0..entries.len() {
        let entry = entry_at(entries, entries.len() - 1 - done);
        put(&mut values, entry);
    }
    Ok(values)
}

fn entry_at(entries: &[Entry], at: usize) -> Entry
    requires { at < length entries.now }
    ensures { slice_get entries.now at ≡ Some result }
{
    entries[at]
}

fn put(values: &mut Vec<Option<u32>>, entry: Entry)
    ensures { values.new.items ≡ slice_set values.old.items entry.number (Some entry.value) }
{
    let at = entry.number as usize;
    if at < values.len() {
        values[at] = Some(entry.value);
    }
}
