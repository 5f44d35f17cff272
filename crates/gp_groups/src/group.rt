// Reading a group of sixteen coded values in one of its four modes.
ghost use Rattle.std.specs.Prelude.{◌≡◌, ◌<◌, ◌≤◌, length, MatchOption, IfSome};
ghost use Rattle.std.specs.Option.{option_map};
ghost use Rattle.gp_groups.specs.Group.{group, packed, packed_len, is_sentinel};

/// How many bytes the group at the front takes in this mode, or `None` where the bytes run out
/// (EXT_meshopt_compression, appendix A, mode 0).
pub fn group_len(mode: u8, bytes: &[u8]) -> Option<usize>
    requires { mode < 4 }
    ensures value { result ≡ option_map (λ g. g.1) (group mode bytes.now) }
    ensures within { IfSome result (λ size. size ≤ length bytes.now) }
{
    let mut size = front_len(mode);
    if bytes.len() < size {
        return None;
    }
    'values: for i in 0..16 {
        if stands_behind(mode, packed_value(mode, bytes, i)) {
            size += 1;
        }
    }
    if size <= bytes.len() {
        Some(size)
    } else {
        None
    }
}

/// Fills in the sixteen coded values of the group at the front, and answers how many bytes it takes in this mode.
/// `None` where the bytes run out; it is not specified what `values` holds then
/// (EXT_meshopt_compression, appendix A, mode 0).
pub fn decode_group(mode: u8, bytes: &[u8], values: &mut [u8; 16]) -> Option<usize>
    requires { mode < 4 }
    ensures value { MatchOption result (group mode bytes.now ≡ None) (λ size. group mode bytes.now ≡ Some (values.new, size)) }
    ensures within { IfSome result (λ size. size ≤ length bytes.now) }
{
    if bytes.len() < 32 {
        return decode_near_end(mode, bytes, values);
    }
    match mode {
        0 => Some(decode_far_from_end(0, bytes, values)),
        1 => Some(decode_far_from_end(1, bytes, values)),
        2 => Some(decode_far_from_end(2, bytes, values)),
        _ => Some(decode_far_from_end(3, bytes, values)),
    }
}

// A group behind which the bytes may run out.
fn decode_near_end(mode: u8, bytes: &[u8], values: &mut [u8; 16]) -> Option<usize>
    requires { mode < 4 }
    ensures value { MatchOption result (group mode bytes.now ≡ None) (λ size. group mode bytes.now ≡ Some (values.new, size)) }
    ensures within { IfSome result (λ size. size ≤ length bytes.now) }
{
    let mut size = front_len(mode);
    if bytes.len() < size {
        return None;
    }
    'values: for i in 0..16 {
        let value = packed_value(mode, bytes, i);
        if stands_behind(mode, value) {
            if size == bytes.len() {
                return None;
            }
            values[i] = bytes[size];
            size += 1;
        } else {
            values[i] = value;
        }
    }
    Some(size)
}

// A group with bytes for sixteen packed values and sixteen more, so that none has to be asked for. Called with a mode
// that stands in the source, it is compiled for that mode alone.
#[inline(always)]
fn decode_far_from_end(mode: u8, bytes: &[u8], values: &mut [u8; 16]) -> usize
    requires mode { mode < 4 }
    requires ample { 32 ≤ length bytes.now }
    ensures value { group mode bytes.now ≡ Some (values.new, result) }
    ensures within { result ≤ length bytes.now }
{
    let mut size = front_len(mode);
    'values: for i in 0..16 {
        let value = packed_value(mode, bytes, i);
        let is_behind = stands_behind(mode, value);
        let behind = bytes[size];
        values[i] = if is_behind { behind } else { value };
        size += usize::from(is_behind);
    }
    size
}

// The bytes of the packed values.
fn front_len(mode: u8) -> usize
    ensures value { result ≡ packed_len mode }
    ensures fits { result ≤ 16 }
{
    match mode {
        0 => 0,
        1 => 4,
        2 => 8,
        _ => 16,
    }
}

// The packed value of place `i`, the first of a byte in its highest bits.
fn packed_value(mode: u8, bytes: &[u8], i: usize) -> u8
    requires front { packed_len mode ≤ length bytes.now }
    requires place { i < 16 }
    ensures { result ≡ packed mode bytes.now i }
{
    match mode {
        0 => 0,
        1 => (bytes[i / 4] >> (6 - 2 * (i % 4))) % 4,
        2 => (bytes[i / 2] >> (4 - 4 * (i % 2))) % 16,
        _ => bytes[i],
    }
}

// Whether the coded value is one of the bytes behind the packed ones.
fn stands_behind(mode: u8, value: u8) -> bool
    ensures { result ≡ is_sentinel mode value }
{
    mode == 1 && value == 3 || mode == 2 && value == 15
}
