// The meshlets of a list of triangles, run by run.
ghost use Rattle.std.specs.Prelude.{◌≡◌, ◌*◌, ◌/◌, ◌%◌, ◌<◌, ◌≤◌, ◌∷◌, length, drop, IfOk};
ghost use Rattle.gp_meshlets.specs.Meshlets.{meshlets};
ghost use Rattle.gp_meshlets.specs.Building.{shown};
ghost use Rattle.gp_meshlets.specs.Corners.{corners_of, AreTriangles};

use crate::corners::Corners;
use crate::growth::Growing;
use crate::meshlet::Meshlets;
use gp_host::NoMemory;
use std::alloc::Global;

/// The meshlets of a list of triangles: its runs in order, each with as many triangles as fit, which are at most 126 with at most 64
/// distinct vertices.
///
/// A triangle takes at most a few looks at each vertex of its meshlet, so the time grows with the list. Beside what is given back there is one
/// meshlet in memory.
pub fn build(alloc: Global, list: &[u32]) -> Result<Meshlets, NoMemory>
    requires { length list.now % 3 ≡ 0 }
    ensures { IfOk result (λ built. built ≡ meshlets list.now) }
{
    let corners = Corners::Listed(list);
    let mut growing = Growing::new(alloc);
    let mut built = Vec::new(alloc);
    let mut from = 0;
    'runs: while from < list.len() / 3 {
        from = take_run(&mut growing, &corners, from)?;
        built.push(growing.to_meshlet(alloc)?)?;
    }
    Ok(Meshlets::from_vec(built))
}

/// Takes the run that begins with triangle `from`. The place of the triangle behind it.
pub(crate) fn take_run(
    growing: &mut Growing,
    corners: &Corners<'_>,
    from: usize,
) -> Result<usize, NoMemory>
    requires triangles { AreTriangles corners.now }
    requires within { from < length (corners_of corners.now) / 3 }
    ensures some { IfOk result (λ next. from < next) }
    ensures within { IfOk result (λ next. next ≤ length (corners_of corners.now) / 3) }
    ensures run { IfOk result (λ next. meshlets (drop (3 * from) (corners_of corners.now)) ≡ shown growing.new ∷ meshlets (drop (3 * next) (corners_of corners.now))) }
{
    growing.clear();
    let mut passed = 0;
    'triangles: for at in from..corners.triangles() {
        let triangle = corners.triangle(at, &mut passed);
        if !growing.take(triangle)? {
            return Ok(at);
        }
    }
    Ok(corners.triangles())
}

/// How many meshlets a list of triangles has.
pub(crate) fn count_meshlets(growing: &mut Growing, corners: &Corners<'_>) -> Result<u64, NoMemory>
    requires { AreTriangles corners.now }
    ensures { IfOk result (λ count. count ≡ length (meshlets (corners_of corners.now))) }
{
    let mut count = 0;
    let mut from = 0;
    'runs: while from < corners.triangles() {
        from = take_run(growing, corners, from)?;
        count += 1;
    }
    Ok(count)
}
