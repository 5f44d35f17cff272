// An index at its place in a list of bytes.
ghost use Rattle.std.specs.Prelude.{◌≡◌, ◌+◌, ◌*◌, ◌≤◌, ◌⊎◌, ◌++◌, true, false, take, drop, length, MatchResult};
ghost use Rattle.gp_groups.specs.Sequence.{is_too_wide, le_bytes};
ghost use Rattle.gp_groups.specs.declared.fault.StreamFault.TheVariants.{Width};

use byteorder::{ByteOrder, LittleEndian};
use gp_groups::StreamFault;

/// Writes the index of this number in a list of indices of `stride` bytes each, the lowest byte first, and nothing else.
/// `Width` where it has no place in two bytes; the list stays then.
pub fn put_index(
    index: u32,
    number: usize,
    stride: usize,
    dest: &mut [u8],
) -> Result<(), StreamFault>
    requires stride { (stride ≡ 2) ⊎ (stride ≡ 4) }
    requires room { (number + 1) * stride ≤ length dest.old }
    ensures fault { MatchResult result (λ _. is_too_wide stride index ≡ false) (λ fault. (is_too_wide stride index ≡ true) × (fault ≡ Width number)) }
    ensures written { MatchResult result (λ _. dest.new ≡ take (number * stride) dest.old ++ le_bytes stride index ++ drop ((number + 1) * stride) dest.old) (λ _. dest.new ≡ dest.old) }
{
    if stride == 2 && index > 65535 {
        return Err(StreamFault::Width { at: number });
    }
    let place = &mut dest[number * stride..(number + 1) * stride];
    if stride == 2 {
        LittleEndian::write_u16(place, index as u16);
    } else {
        LittleEndian::write_u32(place, index);
    }
    Ok(())
}
