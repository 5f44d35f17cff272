// The coding of one stream.
ghost use Rattle.std.specs.Prelude.{◌≡◌, ◌%◌, ◌≤◌, ◌↔◌, IsTrue};

use crate::job::{Job, Kind};
use gp_groups::StreamFault;
use gp_host::NoMemory;
use gp_index::{decode_triangles, encode_triangles};
use gp_sequence::{decode_sequence, encode_sequence};
use gp_vertex::{decode_attributes, encode_attributes};
use std::alloc::{AllocError, AllocFailed, Global};

/// Why nothing was coded.
#[derive(Clone, Copy, Debug, PartialEq, Eq)]
pub(crate) enum Failure {
    /// The stream has this fault.
    Stream(StreamFault),
    /// The stride, the count or an index is none that the coder takes.
    Shape,
    Memory,
}

impl From<StreamFault> for Failure {
    fn from(fault: StreamFault) -> Self {
        Failure::Stream(fault)
    }
}

impl From<NoMemory> for Failure {
    fn from(_: NoMemory) -> Self {
        Failure::Memory
    }
}

impl<T: Drop> From<AllocFailed<T>> for Failure {
    fn from(_: AllocFailed<T>) -> Self {
        Failure::Memory
    }
}

impl From<AllocError> for Failure {
    fn from(_: AllocError) -> Self {
        Failure::Memory
    }
}

/// Does the job on these bytes.
pub(crate) fn coded(alloc: Global, job: Job, bytes: &[u8]) -> Result<Vec<u8>, Failure> {
    match job {
        Job::Copy => Ok(bytes.to_vec(alloc)?),
        Job::Decode {
            kind,
            count,
            stride,
        } => decoded(alloc, kind, bytes, count, stride),
        Job::Encode {
            kind: Kind::Attributes,
            count,
            stride,
        } => encoded_attributes(alloc, bytes, count, stride),
        Job::Encode { kind, .. } => encoded_indices(alloc, kind, bytes),
    }
}

fn decoded(
    alloc: Global,
    kind: Kind,
    bytes: &[u8],
    count: usize,
    stride: usize,
) -> Result<Vec<u8>, Failure> {
    let Some(len) = count.checked_mul(stride) else {
        return Err(Failure::Shape);
    };
    let mut dest = vec![in alloc; 0; len]?;
    match kind {
        Kind::Attributes if is_element(stride) => decode_attributes(
            bytes, count, stride, &mut dest,
        )?,
        Kind::Sequence if stride == 2 || stride == 4 => {
            decode_sequence(bytes, count, stride, &mut dest)?
        }
        Kind::Triangles if (stride == 2 || stride == 4) && count % 3 == 0 => {
            decode_triangles(bytes, count, stride, &mut dest)?
        }
        _ => return Err(Failure::Shape),
    }
    Ok(dest)
}

/// Whether an attribute stream may have elements of this many bytes.
fn is_element(stride: usize) -> bool
    ensures { IsTrue result ↔ ((stride % 4 ≡ 0) × (4 ≤ stride) × (stride ≤ 256)) }
{
    stride % 4 == 0 && stride >= 4 && stride <= 256
}

fn encoded_attributes(
    alloc: Global,
    bytes: &[u8],
    count: usize,
    stride: usize,
) -> Result<Vec<u8>, Failure> {
    if !is_element(stride) || count.checked_mul(stride) != Some(bytes.len()) {
        return Err(Failure::Shape);
    }
    Ok(encode_attributes(alloc, bytes, count, stride)?)
}

fn encoded_indices(alloc: Global, kind: Kind, bytes: &[u8]) -> Result<Vec<u8>, Failure> {
    let mut indices = Vec::with_capacity(alloc, bytes.len() / 4)?;
    for at in 0..bytes.len() / 4 {
        let index = [
            bytes[4 * at],
            bytes[4 * at + 1],
            bytes[4 * at + 2],
            bytes[4 * at + 3],
        ];
        indices.push(u32::from_le_bytes(index))?;
    }
    match kind {
        Kind::Sequence if indices.iter().all(|index| *index < 1 << 30) => {
            Ok(encode_sequence(alloc, &indices)?)
        }
        Kind::Triangles if indices.len() % 3 == 0 && indices.iter().all(|index| *index < 1 << 24) =>
            { Ok(encode_triangles(alloc, &indices)?) }
        _ => Err(Failure::Shape),
    }
}
