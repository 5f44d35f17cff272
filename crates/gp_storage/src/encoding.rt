// The stream of one buffer view.
ghost use Rattle.std.specs.Prelude.{◌≡◌, ◌⊎◌, ◌<◌, ◌≤◌, ◌%◌, ◌/◌, ◌^◌, length, nat_lt, if◌then◌else◌, IfOk, IfSome, Some, None, true};
ghost use Rattle.std.specs.List.{All};
ghost use Rattle.gp_rules.specs.Views.{is_stride_in};
ghost use Rattle.gp_groups.specs.WrittenAttributes.{encoded_attributes};
ghost use Rattle.gp_groups.specs.WrittenTriangles.{encoded_triangles};
ghost use Rattle.gp_groups.specs.WrittenSequence.{encoded_sequence};
ghost use Rattle.gp_storage.specs.declared.coding.Coding.{Coding as CodingFields};
ghost use Rattle.gp_storage.specs.Coding.{numbers_in};
ghost use Rattle.gp_storage.specs.Streams.{MayBeCoded, stream_of};

use crate::coding::{Coding, Stream};
use crate::listing::numbers;
use gp_host::{Bytes, NoMemory};
use gp_index::encode_triangles;
use gp_rules::StreamMode;
use gp_sequence::encode_sequence;
use gp_vertex::encode_attributes;
use std::alloc::Global;

/// The stream of bytes that may be coded so, where it has fewer bytes. It fails only for want of memory.
#[tactic(auto, unfolding(crate::specs::Streams::stream_of, crate::specs::Streams::encoded))]
pub fn encode(
    alloc: Global,
    coding: Option<Coding>,
    bytes: &[u8],
) -> Result<Option<Stream>, NoMemory>
    requires shape { IfSome coding (λ (c : CodingFields). is_stride_in c.mode c.stride ≡ true) }
    requires numbers { IfSome coding (MayBeCoded bytes.now) }
    ensures { IfOk result (λ stream. stream ≡ stream_of coding bytes.now) }
{
    let Some(coding) = coding else {
        return Ok(None);
    };
    match coding.mode {
        StreamMode::Attributes => {
            let stream = attribute_stream(alloc, bytes, coding.stride as usize)?;
            Ok(shorter(coding, stream, bytes.len()))
        }
        StreamMode::Triangles => {
            let stream = triangle_stream(alloc, bytes, coding.stride as usize)?;
            Ok(shorter(coding, stream, bytes.len()))
        }
        StreamMode::Indices => {
            let stream = sequence_stream(alloc, bytes, coding.stride as usize)?;
            Ok(shorter(coding, stream, bytes.len()))
        }
    }
}

// The stream of attributes of this size.
fn attribute_stream(alloc: Global, bytes: &[u8], stride: usize) -> Result<Bytes, NoMemory>
    requires fours { stride % 4 ≡ 0 }
    requires least { 4 ≤ stride }
    requires most { stride ≤ 256 }
    ensures { IfOk result (λ stream. stream ≡ encoded_attributes bytes.now (length bytes.now / stride) stride) }
{
    let count = bytes.len() / stride;
    // A view of an asset has no bytes behind its last element.
    let stream = encode_attributes(alloc, &bytes[..count * stride], count, stride)?;
    Ok(Bytes::from_vec(stream))
}

// The stream of triangles whose corners have this size.
fn triangle_stream(alloc: Global, bytes: &[u8], width: usize) -> Result<Bytes, NoMemory>
    requires width { (width ≡ 2) ⊎ (width ≡ 4) }
    requires triangles { length (numbers_in width bytes.now) % 3 ≡ 0 }
    requires range { All (λ n. n < 2 ^ 24) (numbers_in width bytes.now) }
    ensures { IfOk result (λ stream. stream ≡ encoded_triangles (numbers_in width bytes.now)) }
{
    let list = numbers(alloc, bytes, width)?;
    let stream = encode_triangles(alloc, list.as_slice())?;
    Ok(Bytes::from_vec(stream))
}

// The index sequence whose numbers have this size.
fn sequence_stream(alloc: Global, bytes: &[u8], width: usize) -> Result<Bytes, NoMemory>
    requires width { (width ≡ 2) ⊎ (width ≡ 4) }
    requires range { All (λ n. n < 2 ^ 30) (numbers_in width bytes.now) }
    ensures { IfOk result (λ stream. stream ≡ encoded_sequence (numbers_in width bytes.now)) }
{
    let list = numbers(alloc, bytes, width)?;
    let stream = encode_sequence(alloc, list.as_slice())?;
    Ok(Bytes::from_vec(stream))
}

// The stream, where it is shorter than what it stands for.
fn shorter(coding: Coding, bytes: Bytes, most: usize) -> Option<Stream>
    ensures { result ≡ (if nat_lt (length bytes) most then Some (record { coding = coding; bytes = bytes }) else None) }
{
    if bytes.as_slice().len() < most {
        Some(Stream { coding, bytes })
    } else {
        None
    }
}
