// Streams of indices and of triangles.
ghost use Rattle.std.specs.Prelude.{◌≡◌, ◌*◌, ◌%◌, ◌^◌, ◌==◌, ◌&&◌, ◌⊎◌, ◌<◌, ◌↔◌, IsTrue, length, nat_lt};
ghost use Rattle.std.specs.List.{All, list_all};
ghost use Rattle.gp_groups.specs.Sequence.{decoded_sequence};
ghost use Rattle.gp_groups.specs.Triangles.{decoded_triangles};
ghost use Rattle.gp_groups.specs.WrittenSequence.{encoded_sequence};
ghost use Rattle.gp_groups.specs.WrittenTriangles.{encoded_triangles};
ghost use Rattle.gp_library_c.specs.Answers.{Decoded, Encoded, are_indices};
ghost use Rattle.gp_library_c.specs.Places.{place};

use crate::answers::{NO_SHAPE, NO_STREAM, answer_of, hand_out_stream};
use gp_index::{decode_triangles, encode_triangles};
use gp_sequence::{decode_sequence, encode_sequence};
use std::alloc::Global;

/// Decodes `count` indices of two or four bytes each, as `gp_sequence::decode_sequence`.
#[unsafe(no_mangle)]
pub extern "C" fn gp_library_c_decode_sequence(
    bytes: &[u8],
    count: usize,
    stride: usize,
    dest: &mut [u8],
) -> i32
    ensures { Decoded (are_indices (length dest.old) count stride) (decoded_sequence bytes.now count stride) result dest.old dest.new }
{
    if has_shape(dest.len(), count, stride) {
        answer_of(decode_sequence(bytes, count, stride, dest))
    } else {
        NO_STREAM
    }
}

/// Encodes indices below 2^30, as `gp_sequence::encode_sequence`, and tells the stream's size.
#[unsafe(no_mangle)]
pub extern "C" fn gp_library_c_encode_sequence(
    alloc: Global,
    indices: &[u32],
    room: &mut [u8],
    size: &mut usize,
) -> u32
    ensures { Encoded (list_all (λ index. nat_lt index (2 ^ 30)) indices.now) (encoded_sequence indices.now) result (place room.old size.old) (place room.new size.new) }
{
    if are_below(indices, 1 << 30) {
        hand_out_stream(encode_sequence(alloc, indices), room, size)
    } else {
        NO_SHAPE
    }
}

/// Decodes `count` indices of two or four bytes each, three to a triangle, as `gp_index::decode_triangles`.
#[unsafe(no_mangle)]
pub extern "C" fn gp_library_c_decode_triangles(
    bytes: &[u8],
    count: usize,
    stride: usize,
    dest: &mut [u8],
) -> i32
    ensures { Decoded (are_indices (length dest.old) count stride && count % 3 == 0) (decoded_triangles bytes.now count stride) result dest.old dest.new }
{
    if has_shape(dest.len(), count, stride) && count % 3 == 0 {
        answer_of(decode_triangles(bytes, count, stride, dest))
    } else {
        NO_STREAM
    }
}

/// Encodes indices below 2^24, three to a triangle, as `gp_index::encode_triangles`, and tells the stream's size.
#[unsafe(no_mangle)]
pub extern "C" fn gp_library_c_encode_triangles(
    alloc: Global,
    indices: &[u32],
    room: &mut [u8],
    size: &mut usize,
) -> u32
    ensures { Encoded (length indices.now % 3 == 0 && list_all (λ index. nat_lt index (2 ^ 24)) indices.now) (encoded_triangles indices.now) result (place room.old size.old) (place room.new size.new) }
{
    if indices.len() % 3 == 0 && are_below(indices, 1 << 24) {
        hand_out_stream(encode_triangles(alloc, indices), room, size)
    } else {
        NO_SHAPE
    }
}

// Whether so many bytes are `count` indices of two or four bytes each.
fn has_shape(len: usize, count: usize, stride: usize) -> bool
    ensures value { result ≡ are_indices len count stride }
    ensures told { IsTrue result ↔ (((stride ≡ 2) ⊎ (stride ≡ 4)) × (len ≡ count * stride)) }
{
    (stride == 2 || stride == 4) && count.checked_mul(stride) == Some(len)
}

// Whether all indices are below the limit.
fn are_below(indices: &[u32], limit: u32) -> bool
    ensures value { result ≡ list_all (λ index. nat_lt index limit) indices.now }
    ensures told { IsTrue result ↔ All (λ index. index < limit) indices.now }
{
    indices.iter().all(|index| *index < limit)
}
