// A group of primitives that moves, as far as the JSON says it.
ghost use Rattle.std.specs.Prelude.{◌≡◌, ◌++◌, map, IfOk, OnOk};
ghost use Rattle.gp_moves.specs.Firsts.{part_of, entry_of, entries_of};

use crate::firsts::Entry;
use gp_host::{NoMemory, Numbers};
use std::alloc::Global;

/// Triangle primitives that share their vertices and move.
#[derive(Drop)]
pub struct GroupEdit {
    /// The places of its primitives among those of all meshes.
    pub primitives: Numbers,
    /// The accessors of its vertices, by rising number.
    pub columns: Numbers,
    /// The accessors of its indices, by rising number.
    pub lists: Numbers,
    /// The accessor that its primitives without indices get, where it has such.
    pub list_accessor: Option<u32>,
    /// The count of its vertices in the input.
    pub count: u32,
    /// How many vertices there are in the new order.
    pub records: u32,
}

/// Numbers that a group has.
#[derive(Clone, Copy, Debug, PartialEq, Eq)]
pub enum Part {
    /// The places of its primitives.
    Primitives,
    /// The accessors of its vertices.
    Columns,
    /// The accessors of its indices.
    Lists,
}

impl GroupEdit {
    fn part(&self, part: Part) -> &[u32]
        ensures { result.now ≡ part_of part self.now }
    {
        match part {
            Part::Primitives => self.primitives.as_slice(),
            Part::Columns => self.columns.as_slice(),
            Part::Lists => self.lists.as_slice(),
        }
    }
}

/// Each number of this part of the groups, with the group's place among them. Where 2^32 places don't fit their numbers,
/// the answer is want of memory.
pub fn group_entries(
    alloc: Global,
    groups: &[GroupEdit],
    part: Part,
) -> Result<Vec<Entry>, NoMemory>
    ensures { IfOk result (λ v. v.items ≡ entries_of part groups.now) }
{
    let mut entries = Vec::new(alloc);
    'groups: for at in 0..groups.len() {
        let value = number_of(at)?;
        push_entries(&mut entries, groups[at].part(part), value)?;
    }
    Ok(entries)
}

fn push_entries(entries: &mut Vec<Entry>, numbers: &[u32], value: u32) -> Result<(), NoMemory>
    ensures { OnOk result (entries.new.items ≡ entries.old.items ++ map (entry_of value) numbers.now) }
{
    'numbers: for at in 0..numbers.len() {
        entries.push(Entry {
            number: numbers[at],
            value,
        })?;
    }
    Ok(())
}

// A place as a number. One of 2^32 or more is want of memory.
pub(crate) fn number_of(at: usize) -> Result<u32, NoMemory>
    ensures { IfOk result (λ number. number ≡ at) }
{
    u32::try_from(at).map_err(|_| NoMemory)
}
