// Lists of triangles that stand for strips and fans.
ghost use Rattle.std.specs.Prelude.{◌≡◌, ◌≤◌, ◌⊎◌, ◌^◌, IfOk, length};
ghost use Rattle.gp_strips.specs.Strips.{strip_list, fan_list, listed_corners};

use gp_host::NoMemory;
use std::alloc::Global;

/// The mode of a primitive that is a strip of triangles.
pub const STRIP: u32 = 5;

/// The list of triangles that stands for a strip (mode 5) or a fan (mode 6) of at least three vertices.
pub fn triangles(alloc: Global, mode: u32, list: &[u32]) -> Result<Vec<u32>, NoMemory>
    requires mode { (mode ≡ 5) ⊎ (mode ≡ 6) }
    requires some { 3 ≤ length list.now }
    requires few { length list.now ≤ 2 ^ 24 }
    ensures { IfOk result (λ v. v.items ≡ listed_corners mode list.now) }
{
    if mode == STRIP {
        strip_list(alloc, list)
    } else {
        fan_list(alloc, list)
    }
}

/// The list of triangles that stands for a strip of these vertices.
pub fn strip_list(alloc: Global, list: &[u32]) -> Result<Vec<u32>, NoMemory>
    requires few { length list.now ≤ 2 ^ 24 }
    ensures { IfOk result (λ v. v.items ≡ strip_list list.now) }
{
    let count = list.len().saturating_sub(2);
    let mut corners = Vec::with_capacity(alloc, 3 * count)?;
    'triangles: for at in 0..count {
        let turn = at % 2;
        corners.push(list[at])?;
        corners.push(list[at + 1 + turn])?;
        corners.push(list[at + 2 - turn])?;
    }
    Ok(corners)
}

/// The list of triangles that stands for a fan of these vertices.
pub fn fan_list(alloc: Global, list: &[u32]) -> Result<Vec<u32>, NoMemory>
    requires few { length list.now ≤ 2 ^ 24 }
    ensures { IfOk result (λ v. v.items ≡ fan_list list.now) }
{
    let count = list.len().saturating_sub(2);
    let mut corners = Vec::with_capacity(alloc, 3 * count)?;
    'triangles: for at in 0..count {
        corners.push(list[at + 1])?;
        corners.push(list[at + 2])?;
        corners.push(list[0])?;
    }
    Ok(corners)
}
