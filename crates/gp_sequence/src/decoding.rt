// Sequences, read.
ghost use Rattle.std.specs.Prelude.{◌≡◌, ◌+◌, ◌*◌, ◌≤◌, ◌⊎◌, length, take, IfOk};
ghost use Rattle.gp_groups.specs.Sequence.{body, decoded_sequence};
ghost use Rattle.gp_groups.specs.Steps.{beside, filled};
ghost use Rattle.gp_sequence.specs.Turns.{turn};

use crate::baselines::Baselines;
use crate::place::put_index;
use crate::varints::read_varint;
use gp_groups::StreamFault;

/// Fills the slice with the `count` indices of a stream, of `stride` bytes each (EXT_meshopt_compression, mode 2, version 1).
/// `Header`, `Short`, `Varint`, `Width` or `Tail` where the stream has no meaning; the slice may hold anything then.
pub fn decode_sequence(
    bytes: &[u8],
    count: usize,
    stride: usize,
    dest: &mut [u8],
) -> Result<(), StreamFault>
    requires stride { (stride ≡ 2) ⊎ (stride ≡ 4) }
    requires room { length dest.old ≡ count * stride }
    ensures { decoded_sequence bytes.now count stride ≡ filled result dest.new }
{
    if bytes.is_empty() || bytes[0] != 0xD1 {
        return Err(StreamFault::Header);
    }
    read_indices(&bytes[1..], count, stride, dest)
}

// Reads the index of this number, and answers how many bytes it takes.
fn read_index(
    bytes: &[u8],
    baselines: &mut Baselines,
    number: usize,
    stride: usize,
    dest: &mut [u8],
) -> Result<usize, StreamFault>
    requires stride { (stride ≡ 2) ⊎ (stride ≡ 4) }
    requires room { (number + 1) * stride ≤ length dest.old }
    ensures turn { turn stride number baselines.old (take (number * stride) dest.old) bytes.now ≡ beside result (baselines.new, take ((number + 1) * stride) dest.new) }
    ensures within { IfOk result (λ size. size ≤ length bytes.now) }
{
    let (coded, size) = read_varint(bytes)?;
    put_index(baselines.next_index(coded), number, stride, dest)?;
    Ok(size)
}

// Reads so many indices and the tail behind them.
fn read_indices(
    bytes: &[u8],
    count: usize,
    stride: usize,
    dest: &mut [u8],
) -> Result<(), StreamFault>
    requires stride { (stride ≡ 2) ⊎ (stride ≡ 4) }
    requires room { length dest.old ≡ count * stride }
    ensures { body stride count bytes.now ≡ filled result dest.new }
{
    let mut unread = bytes;
    let mut baselines = Baselines {
        first: 0,
        second: 0,
    };
    'indices: for k in 0..count {
        let size = read_index(unread, &mut baselines, k, stride, dest)?;
        unread = &unread[size..];
    }
    let left = unread.len();
    if left == 4 {
        Ok(())
    } else {
        Err(StreamFault::Tail { left })
    }
}
