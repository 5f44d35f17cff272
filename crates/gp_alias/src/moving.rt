// Which accessors move with groups.
ghost use Rattle.std.specs.Prelude.{◌≡◌, false, IfOk, map, length, replicate};
ghost use Rattle.std.specs.List.{range_with_len};
ghost use Rattle.gp_alias.specs.Movable.{is_moved};
ghost use Rattle.gp_alias.specs.Holdings.{flagged};

use crate::group::Group;
use gp_host::NoMemory;
use std::alloc::Global;

/// Of each accessor, of which there are so many, whether it moves with one of these groups.
pub fn moved_accessors(
    alloc: Global,
    groups: &[Group],
    accessors: usize,
) -> Result<Vec<bool>, NoMemory>
    ensures { IfOk result (λ v. v.items ≡ map (is_moved groups.now) (range_with_len 0 accessors)) }
{
    let mut moved = vec![in alloc; false; accessors]?;
    flag_groups(&mut moved, groups);
    Ok(moved)
}

// Sets the flags of the accessors of groups that move, before which none is set.
fn flag_groups(flags: &mut [bool], groups: &[Group])
    ensures { flags.old ≡ replicate (length flags.old) false → flags.new ≡ map (is_moved groups.now) (range_with_len 0 (length flags.old)) }
{
    'groups: for at in 0..groups.len() {
        if groups[at].movable {
            flag(flags, groups[at].columns.as_slice());
            flag(flags, groups[at].lists.as_slice());
        }
    }
}

// Sets the flags of these numbers, where they are there.
fn flag(flags: &mut [bool], numbers: &[u32])
    ensures { flags.new ≡ flagged flags.old numbers.now }
{
    'numbers: for at in 0..numbers.len() {
        let number = numbers[at] as usize;
        if number < flags.len() {
            flags[number] = true;
        }
    }
}
