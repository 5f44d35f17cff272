// Decoding the buffer views of an asset.
ghost use Rattle.std.specs.Prelude.{◌≡◌, ◌*◌, length, replicate, slice_get, Some, IfOk, IfSome};
ghost use Rattle.gp_groups.specs.Steps.{filled};
ghost use Rattle.gp_unpack.specs.Contents.{decoded, contents_of, all_contents, HasShape, HaveShapes, Answers};
ghost use Rattle.gp_unpack.specs.Laid.{ArePlaced, Fills, content_length, content_lengths};

use crate::contents::Contents;
use crate::laying::{Place, place_views};
use gp_asset::{Asset, Refusal, ViewBytes};
use gp_groups::StreamFault;
use gp_host::NoMemory;
use gp_index::decode_triangles;
use gp_rules::{Packed, StreamMode, View};
use gp_sequence::decode_sequence;
use gp_vertex::decode_attributes;
use std::alloc::Global;

/// The bytes of each buffer view of an asset: a slice of its buffer, or what the stream of its compressed form means.
/// `Stream` where a stream has a fault: the first view with one, and that fault. Else only `Memory` is answered.
pub fn decode_views(alloc: Global, asset: &Asset<'_>) -> Result<Contents, Refusal>
    requires { HaveShapes asset.now.views }
    ensures { Answers (all_contents asset.now) result }
{
    let places = place_views(alloc, asset)?;
    let mut buffer = zeros(alloc, places.end)?;
    decode_all(asset, &places.parts, &mut buffer)?;
    Ok(Contents::from_parts(buffer, places.parts))
}

// So many zeros.
fn zeros(alloc: Global, count: usize) -> Result<Vec<u8>, NoMemory>
    ensures { IfOk result (λ zeros. zeros.items ≡ replicate count 0) }
{
    Ok(vec![in alloc; 0; count]?)
}

// Fills the parts of a buffer of zeros with the views that they are for.
fn decode_all(asset: &Asset<'_>, parts: &[Place], buffer: &mut [u8]) -> Result<(), Refusal>
    requires shapes { HaveShapes asset.now.views }
    requires places { ArePlaced (content_lengths asset.now) parts.now (length buffer.old) }
    requires zeros { buffer.old ≡ replicate (length buffer.old) 0 }
    ensures { Fills (all_contents asset.now) parts.now result buffer.new }
{
    let views = asset.views();
    'views: for at in 0..views.len() {
        let part = parts[at];
        let dest = &mut buffer[part.start..part.start + part.length];
        match decode_view(asset, &views[at], at, dest) {
            Ok(()) => {}
            Err(fault) => return Err(Refusal::Stream { view: at, fault }),
        }
    }
    Ok(())
}

// Fills the slice with the contents of view `at`.
fn decode_view(
    asset: &Asset<'_>,
    view: &View,
    at: usize,
    dest: &mut [u8],
) -> Result<(), StreamFault>
    requires place { slice_get asset.now.views at ≡ Some view.now }
    requires shape { IfSome view.now.packed HasShape }
    requires room { length dest.old ≡ content_length asset.now view.now }
    ensures { contents_of asset.now view.now ≡ filled result dest.new }
{
    match view.packed {
        None => {
            dest.copy_from_slice(asset.view(at));
            Ok(())
        }
        Some(packed) => decode_stream(asset.packed_bytes(at), packed, dest),
    }
}

// Fills the slice with the elements that a stream holds.
#[tactic(auto, unfolding(crate::specs::Contents::decoded))]
fn decode_stream(stream: &[u8], packed: Packed, dest: &mut [u8]) -> Result<(), StreamFault>
    requires shape { HasShape packed }
    requires room { length dest.old ≡ packed.count * packed.stride }
    ensures { decoded packed.mode stream.now packed.count packed.stride ≡ filled result dest.new }
{
    let count = packed.count as usize;
    let stride = packed.stride as usize;
    match packed.mode {
        StreamMode::Attributes => decode_attributes(stream, count, stride, dest),
        StreamMode::Triangles => decode_triangles(stream, count, stride, dest),
        StreamMode::Indices => decode_sequence(stream, count, stride, dest),
    }
}
