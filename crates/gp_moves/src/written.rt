// The accessors of groups that get a view, in the order of the views.
ghost use Rattle.std.specs.Prelude.{◌≡◌, ◌++◌, IfOk, OnOk};
ghost use Rattle.gp_moves.specs.Firsts.{written_of, written, placed};

use crate::firsts::Entry;
use crate::group_edit::{GroupEdit, number_of};
use gp_host::NoMemory;
use std::alloc::Global;

/// Those accessors, group by group: of the vertices, of the indices, and the one for primitives without indices.
pub fn written_accessors(alloc: Global, groups: &[GroupEdit]) -> Result<Vec<u32>, NoMemory>
    ensures { IfOk result (λ v. v.items ≡ written groups.now) }
{
    let mut numbers = Vec::new(alloc);
    'groups: for at in 0..groups.len() {
        push_group(&mut numbers, &groups[at])?;
    }
    Ok(numbers)
}

fn push_group(numbers: &mut Vec<u32>, group: &GroupEdit) -> Result<(), NoMemory>
    ensures { OnOk result (numbers.new.items ≡ numbers.old.items ++ written_of group.now) }
{
    numbers.extend_from_slice(group.columns.as_slice())?;
    numbers.extend_from_slice(group.lists.as_slice())?;
    if let Some(number) = group.list_accessor {
        numbers.push(number)?;
    }
    Ok(())
}

/// Each number with its place. Where 2^32 places don't fit their numbers, the answer is want of memory.
pub fn placed_entries(alloc: Global, numbers: &[u32]) -> Result<Vec<Entry>, NoMemory>
    ensures { IfOk result (λ v. v.items ≡ placed numbers.now) }
{
    let mut entries = Vec::new(alloc);
    'numbers: for at in 0..numbers.len() {
        entries.push(Entry {
            number: numbers[at],
            value: number_of(at)?,
        })?;
    }
    Ok(entries)
}
