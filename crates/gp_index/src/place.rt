// A triangle at its place in a list of bytes.
ghost use Rattle.std.specs.Prelude.{◌≡◌, ◌+◌, ◌*◌, ◌≤◌, ◌⊎◌, ◌++◌, ⊤, length, take, MatchResult, Ok, Err};
ghost use Rattle.std.specs.List.{flat_map};
ghost use Rattle.gp_groups.specs.Sequence.{le_bytes};
ghost use Rattle.gp_groups.specs.Triangles.{corners, narrow};

use gp_groups::StreamFault;
use gp_sequence::put_index;

// Writes the corners of the triangle whose corner 0 has this number in the list.
pub fn put_triangle(
    triangle: (u32, u32, u32),
    number: usize,
    stride: usize,
    dest: &mut [u8],
) -> Result<(), StreamFault>
    requires stride { (stride ≡ 2) ⊎ (stride ≡ 4) }
    requires room { (number + 3) * stride ≤ length dest.old }
    ensures written { MatchResult result (λ _. narrow stride number (corners triangle) ≡ Ok (corners triangle)) (λ fault. narrow stride number (corners triangle) ≡ Err fault) }
    ensures bytes { MatchResult result (λ _. take ((number + 3) * stride) dest.new ≡ take (number * stride) dest.old ++ flat_map (le_bytes stride) (corners triangle)) (λ _. ⊤) }
{
    let (a, b, c) = triangle;
    put_index(a, number, stride, dest)?;
    put_index(b, number + 1, stride, dest)?;
    put_index(c, number + 2, stride, dest)
}
