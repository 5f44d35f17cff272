// Sequences, written.
ghost use Rattle.std.specs.Prelude.{◌≡◌, ◌^◌, ◌<◌, ◌≤◌, length, IfOk, Ok};
ghost use Rattle.std.specs.List.{All, flat_map};
ghost use Rattle.gp_groups.specs.Sequence.{decoded_sequence, le_bytes};
ghost use Rattle.gp_groups.specs.WrittenSequence.{encoded_sequence};

use crate::in_use::InUse;
use crate::varints::append_varint;
use gp_host::NoMemory;
use std::alloc::Global;

/// The stream of a list of indices, each of which is below 2^30 (EXT_meshopt_compression, mode 2, version 1).
/// It means the list again, in four bytes an index, and in two where each index is at most 65535.
pub fn encode_sequence(alloc: Global, indices: &[u32]) -> Result<Vec<u8>, NoMemory>
    requires { All (λ index. index < 2 ^ 30) indices.now }
    ensures written { IfOk result (λ bytes. bytes.items ≡ encoded_sequence indices.now) }
    ensures read_back { IfOk result (λ bytes. decoded_sequence bytes.items (length indices.now) 4 ≡ Ok (flat_map (le_bytes 4) indices.now)) }
    ensures read_back_narrow { All (λ index. index ≤ 65535) indices.now → IfOk result (λ bytes. decoded_sequence bytes.items (length indices.now) 2 ≡ Ok (flat_map (le_bytes 2) indices.now)) }
{
    let mut bytes = Vec::with_capacity(alloc, indices.len())?;
    bytes.push(0xD1)?;
    let mut baselines = InUse {
        number: 0,
        used: 0,
        other: 0,
    };
    'indices: for k in 0..indices.len() {
        let value = baselines.next_value(indices[k]);
        append_varint(&mut bytes, value)?;
    }
    bytes.extend_from_slice(&[0; 4])?;
    Ok(bytes)
}
