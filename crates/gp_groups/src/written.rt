// The mode and the bytes in which a group is written.
ghost use Rattle.std.specs.Prelude.{◌≡◌, ℕ, ◌+◌, ◌<◌, ◌≤◌, List, [], ◌++◌, nat_le, length, map, Some};
ghost use Rattle.std.specs.List.{filter, range_with_len};
ghost use Rattle.arrayvec.specs.ArrayVec.{array_vec_len};
ghost use Rattle.gp_groups.specs.Group.{group};
ghost use Rattle.gp_groups.specs.WrittenGroup.{at_least, best, pair, quad, written_group};

use arrayvec::ArrayVec;

/// The mode in which a group of these coded values takes the fewest bytes: mode 3 on a tie with it, else the smaller
/// (EXT_meshopt_compression, appendix A, mode 0).
pub fn best_mode(values: &[u8; 16]) -> u8
    ensures value { result ≡ best values.now }
    ensures below { result < 4 }
    ensures shortest { (mode : ℕ) (bytes : List ℕ) (size : ℕ) → group mode bytes ≡ Some (values.now, size) → length (written_group result values.now) ≤ size }
{
    if count_from(values, 1) == 0 {
        return 0;
    }
    let by_quads = 4 + count_from(values, 3);
    let by_pairs = 8 + count_from(values, 15);
    if by_quads.min(by_pairs) >= 16 {
        3
    } else if by_quads <= by_pairs {
        1
    } else {
        2
    }
}

/// The bytes of a group of these coded values in a mode (EXT_meshopt_compression, appendix A, mode 0).
pub fn encode_group(mode: u8, values: &[u8; 16]) -> ArrayVec<u8, 24>
    requires mode { mode < 4 }
    requires zeros { mode ≡ 0 → at_least 1 values.now ≡ 0 }
    ensures value { result.items ≡ written_group mode values.now }
    ensures read_back { (after : List ℕ) → group mode (result.items ++ after) ≡ Some (values.now, length result.items) }
{
    match mode {
        0 => ArrayVec::new(),
        1 => with_large(quads(values), values, 3),
        2 => with_large(pairs(values), values, 15),
        _ => plain(values),
    }
}

// How many values are at least `limit`.
fn count_from(values: &[u8; 16], limit: u8) -> u8
    ensures value { result ≡ at_least limit values.now }
    ensures most { result ≤ 16 }
{
    let mut count = 0;
    'values: for value in values {
        count += u8::from(limit <= *value);
    }
    count
}

// The values in 2 bits each.
fn quads(values: &[u8; 16]) -> ArrayVec<u8, 24>
    ensures { result.items ≡ map (quad values.now) (range_with_len 0 4) }
{
    let mut bytes = ArrayVec::new();
    'bytes: for k in 0..4 {
        let [a, b, c, d] = [
            values[4 * k],
            values[4 * k + 1],
            values[4 * k + 2],
            values[4 * k + 3],
        ];
        bytes.push(64 * a.min(3) + 16 * b.min(3) + 4 * c.min(3) + d.min(3));
    }
    bytes
}

// The values in 4 bits each.
fn pairs(values: &[u8; 16]) -> ArrayVec<u8, 24>
    ensures { result.items ≡ map (pair values.now) (range_with_len 0 8) }
{
    let mut bytes = ArrayVec::new();
    'bytes: for k in 0..8 {
        bytes.push(16 * values[2 * k].min(15) + values[2 * k + 1].min(15));
    }
    bytes
}

// The values as they are.
fn plain(values: &[u8; 16]) -> ArrayVec<u8, 24>
    ensures { result.items ≡ values.now }
{
    let mut bytes = ArrayVec::new();
    let _fits = bytes.try_extend_from_slice(values);
    bytes
}

// The packed bytes, and then the values that are at least `limit`.
fn with_large(mut bytes: ArrayVec<u8, 24>, values: &[u8; 16], limit: u8) -> ArrayVec<u8, 24>
    requires { array_vec_len bytes ≤ 8 }
    ensures { result.items ≡ bytes.items ++ filter (λ v. nat_le limit v) values.now }
{
    'values: for value in values {
        if limit <= *value {
            bytes.push(*value);
        }
    }
    bytes
}
