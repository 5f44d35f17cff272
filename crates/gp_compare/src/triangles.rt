// Two lists of triangles.
ghost use Rattle.std.specs.Prelude.{◌≡◌, ◌↔◌, ◌%◌, length, map, nat_eq, IsTrue, IfOk};
ghost use Rattle.std.specs.List.Sorted.{IsPermutation, IsSortedBy};
ghost use Rattle.gp_moving.specs.Triangles.{Agree, triples};
ghost use Rattle.gp_compare.specs.Turned.{least, precedes};

use gp_host::NoMemory;
use std::alloc::Global;

// The corners, in the turning direction.
type Triangle = (u32, u32, u32);

/// Whether each triangle, up to rotation, stands equally often in both lists, three corners a triangle.
pub fn same_triangles(alloc: Global, first: &[u32], second: &[u32]) -> Result<bool, NoMemory>
    requires first_whole { length first.now % 3 ≡ 0 }
    requires second_whole { length second.now % 3 ≡ 0 }
    ensures { IfOk result (λ same. IsTrue same ↔ Agree nat_eq (triples first.now) (triples second.now)) }
{
    let of_first = sorted_triangles(alloc, first)?;
    let of_second = sorted_triangles(alloc, second)?;
    Ok(of_first.as_slice() == of_second.as_slice())
}

// The triangles of a list, each from the corner from which it is least, rising.
fn sorted_triangles(alloc: Global, list: &[u32]) -> Result<Vec<Triangle>, NoMemory>
    requires { length list.now % 3 ≡ 0 }
    ensures moved { IfOk result (λ sorted. IsPermutation (map least (triples list.now)) sorted.items) }
    ensures sorted { IfOk result (λ sorted. IsSortedBy precedes sorted.items) }
{
    let mut triangles = turned_triangles(alloc, list)?;
    triangles.sort_unstable();
    Ok(triangles)
}

// The triangles of a list, each from the corner from which it is least.
fn turned_triangles(alloc: Global, list: &[u32]) -> Result<Vec<Triangle>, NoMemory>
    requires { length list.now % 3 ≡ 0 }
    ensures { IfOk result (λ turned. turned.items ≡ map least (triples list.now)) }
{
    let mut turned = Vec::with_capacity(alloc, list.len() / 3)?;
    'triangles: for at in 0..list.len() / 3 {
        let triangle = (list[3 * at], list[3 * at + 1], list[3 * at + 2]);
        turned.push(least_rotation(triangle))?;
    }
    Ok(turned)
}

fn least_rotation(triangle: Triangle) -> Triangle
    ensures { result ≡ least triangle }
{
    let (a, b, c) = triangle;
    triangle.min((b, c, a)).min((c, a, b))
}
