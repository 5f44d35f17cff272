// Varints, read and written.
ghost use Rattle.std.specs.Prelude.{◌≡◌, ℕ, ◌≤◌, List, ◌++◌, length, IfOk, OnOk, OnErr, Ok};
ghost use Rattle.gp_groups.specs.Varint.{spelled, varint};
ghost use Rattle.gp_sequence.specs.Appending.{GrewByFront};

use arrayvec::ArrayVec;
use gp_groups::StreamFault;
use gp_host::NoMemory;

/// The value of the varint at the front and how many bytes it takes (EXT_meshopt_compression, modes 1 and 2).
/// Longer spellings of a value are read. `Short` where the bytes run out, `Varint` where the fifth byte is over 15.
pub fn read_varint(bytes: &[u8]) -> Result<(u32, usize), StreamFault>
    ensures value { result ≡ varint bytes.now }
    ensures within { IfOk result (λ read. read.1 ≤ length bytes.now) }
{
    let mut value: u32 = 0;
    let mut weight: u32 = 1;
    'digits: for k in 0..4 {
        if k == bytes.len() {
            return Err(StreamFault::Short);
        }
        value += weight * u32::from(bytes[k] % 128);
        weight *= 128;
        if bytes[k] < 128 {
            return Ok((value, k + 1));
        }
    }
    if bytes.len() == 4 {
        Err(StreamFault::Short)
    } else if bytes[4] > 15 {
        Err(StreamFault::Varint)
    } else {
        Ok((value + weight * u32::from(bytes[4]), 5))
    }
}

/// The shortest varint of a value, of one to five bytes (EXT_meshopt_compression, modes 1 and 2).
pub fn write_varint(value: u32) -> ArrayVec<u8, 5>
    ensures value { result.items ≡ spelled value }
    ensures shortest { (bytes : List ℕ) (n : ℕ) → varint bytes ≡ Ok (value, n) → length result.items ≤ n }
    ensures read_back { (after : List ℕ) → varint (result.items ++ after) ≡ Ok (value, length result.items) }
{
    let mut bytes = ArrayVec::new();
    let mut rest = value;
    'digits: while rest >= 128 {
        bytes.push((128 + rest % 128) as u8);
        rest /= 128;
    }
    bytes.push(rest as u8);
    bytes
}

/// Appends the shortest varint of a value, as `write_varint` (EXT_meshopt_compression, modes 1 and 2). It fails only for want of memory,
/// and some of the varint's bytes may then stand there.
// It has a loop of its own: with the array of `write_varint` copied behind the bytes, the encoders take twice as long.
pub fn append_varint(bytes: &mut Vec<u8>, value: u32) -> Result<(), NoMemory>
    ensures appended { OnOk result (bytes.new.items ≡ bytes.old.items ++ spelled value) }
    ensures front { OnErr result (GrewByFront bytes.old.items bytes.new.items (spelled value)) }
{
    let mut rest = value;
    'digits: while rest >= 128 {
        bytes.push((128 + rest % 128) as u8)?;
        rest /= 128;
    }
    bytes.push(rest as u8)?;
    Ok(())
}
