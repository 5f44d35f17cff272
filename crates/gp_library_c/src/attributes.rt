// Attribute streams.
ghost use Rattle.std.specs.Prelude.{◌≡◌, ◌*◌, ◌%◌, ◌≤◌, ◌↔◌, IsTrue, length};
ghost use Rattle.gp_groups.specs.Attributes.{decoded_attributes};
ghost use Rattle.gp_groups.specs.WrittenAttributes.{encoded_attributes};
ghost use Rattle.gp_library_c.specs.Answers.{Decoded, Encoded, are_elements, is_stride};
ghost use Rattle.gp_library_c.specs.Places.{place};

use crate::answers::{NO_SHAPE, NO_STREAM, answer_of, hand_out_stream};
use gp_vertex::{decode_attributes, encode_attributes};
use std::alloc::Global;

/// Decodes `count` elements of `stride` bytes each, as `gp_vertex::decode_attributes`.
#[unsafe(no_mangle)]
pub extern "C" fn gp_library_c_decode_attributes(
    bytes: &[u8],
    count: usize,
    stride: usize,
    dest: &mut [u8],
) -> i32
    ensures { Decoded (are_elements (length dest.old) count stride) (decoded_attributes bytes.now count stride) result dest.old dest.new }
{
    if has_shape(dest.len(), count, stride) {
        answer_of(decode_attributes(bytes, count, stride, dest))
    } else {
        NO_STREAM
    }
}

/// Encodes `count` elements of `stride` bytes each, as `gp_vertex::encode_attributes`, and tells the stream's size.
#[unsafe(no_mangle)]
pub extern "C" fn gp_library_c_encode_attributes(
    alloc: Global,
    source: &[u8],
    count: usize,
    stride: usize,
    room: &mut [u8],
    size: &mut usize,
) -> u32
    ensures { Encoded (are_elements (length source.now) count stride) (encoded_attributes source.now count stride) result (place room.old size.old) (place room.new size.new) }
{
    if has_shape(source.len(), count, stride) {
        hand_out_stream(encode_attributes(alloc, source, count, stride), room, size)
    } else {
        NO_SHAPE
    }
}

// Whether so many bytes are `count` elements of a stride that an attribute stream may have.
fn has_shape(len: usize, count: usize, stride: usize) -> bool
    ensures value { result ≡ are_elements len count stride }
    ensures told { IsTrue result ↔ ((stride % 4 ≡ 0) × (4 ≤ stride) × (stride ≤ 256) × (len ≡ count * stride)) }
{
    is_stride(stride) && count.checked_mul(stride) == Some(len)
}

// Whether an attribute stream may have this stride.
pub(crate) fn is_stride(stride: usize) -> bool
    ensures value { result ≡ is_stride stride }
    ensures told { IsTrue result ↔ ((stride % 4 ≡ 0) × (4 ≤ stride) × (stride ≤ 256)) }
{
    stride % 4 == 0 && stride >= 4 && stride <= 256
}
