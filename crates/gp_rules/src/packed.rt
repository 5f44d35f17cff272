// The compressed forms of buffer views (EXT_meshopt_compression).
ghost use Rattle.std.specs.Prelude.{◌≡◌, not, codes};
ghost use Rattle.gp_tree.specs.Find.{is_named};
ghost use Rattle.gp_rules.specs.Views.{is_filter, is_stride_in, is_count_in, agrees, is_bad_packed, packed_with, packed_of};

use crate::fault::AssetFault;
use crate::storage::{Packed, StreamMode};
use crate::views::{is_stride, runs_past};
use gp_fields::{BufferFields, PackedFields, ViewFields};
use gp_tree::key_is;

const MAX_ELEMENT: u32 = 256;

/// The compressed form of view `at`, where it has one, or what is wrong with it.
pub(crate) fn read_packed(
    view: &ViewFields<'_>,
    at: usize,
    buffers: &[BufferFields<'_>],
) -> Result<Option<Packed>, AssetFault>
    ensures { result ≡ packed_of buffers.now at view.now view.now.packed }
{
    match &view.packed {
        None => Ok(None),
        Some(packed) => {
            packed_with(
                view,
                packed,
                StreamMode::from_name(packed.mode),
                at,
                buffers,
            )
        }
    }
}

fn packed_with(
    view: &ViewFields<'_>,
    packed: &PackedFields<'_>,
    mode: Option<StreamMode>,
    at: usize,
    buffers: &[BufferFields<'_>],
) -> Result<Option<Packed>, AssetFault>
    ensures { result ≡ packed_with buffers.now at view.now packed.now mode }
{
    let Some(mode) = mode else {
        return Err(AssetFault::Extension { at });
    };
    if is_bad_packed(view, packed, mode, buffers) {
        return Err(AssetFault::Extension { at });
    }
    if has_filter(packed) {
        return Err(AssetFault::Filter { at });
    }
    Ok(Some(Packed {
        buffer: packed.buffer,
        offset: packed.offset,
        length: packed.length,
        stride: packed.stride,
        count: packed.count,
        mode,
    }))
}

// Whether an extension object of this mode breaks a rule; a filter that is known breaks none here.
#[tactic(auto, unfolding(crate::specs::Views::is_bad_packed))]
fn is_bad_packed(
    view: &ViewFields<'_>,
    packed: &PackedFields<'_>,
    mode: StreamMode,
    buffers: &[BufferFields<'_>],
) -> bool
    ensures { result ≡ is_bad_packed buffers.now view.now packed.now mode }
{
    !is_filter(packed)
        || packed.count == 0
        || !is_stride_in(mode, packed.stride)
        || !is_count_in(mode, packed.count)
        || packed.stride as u64 * packed.count as u64 != view.length as u64
        || !agrees(view.stride, packed.stride)
        || runs_past(buffers, packed.buffer, packed.offset, packed.length)
}

// Whether the filter is a known one.
fn is_filter(packed: &PackedFields<'_>) -> bool
    ensures { result ≡ is_filter packed.now.filter }
{
    match packed.filter {
        None => true,
        Some(filter) => {
            key_is(filter, "NONE")
                || key_is(filter, "OCTAHEDRAL")
                || key_is(filter, "QUATERNION")
                || key_is(filter, "EXPONENTIAL")
        }
    }
}

// Whether the filter is another than NONE.
fn has_filter(packed: &PackedFields<'_>) -> bool
    ensures { result ≡ not (is_named (codes "NONE") packed.now.filter) }
{
    match packed.filter {
        None => false,
        Some(filter) => !key_is(filter, "NONE"),
    }
}

fn is_stride_in(mode: StreamMode, stride: u32) -> bool
    ensures { result ≡ is_stride_in mode stride }
{
    match mode {
        StreamMode::Attributes => is_stride(stride, MAX_ELEMENT),
        StreamMode::Triangles | StreamMode::Indices => stride == 2 || stride == 4,
    }
}

fn is_count_in(mode: StreamMode, count: u32) -> bool
    ensures { result ≡ is_count_in mode count }
{
    match mode {
        StreamMode::Triangles => count % 3 == 0,
        StreamMode::Attributes | StreamMode::Indices => true,
    }
}

// Whether a view's own stride, where it has one, is this one.
fn agrees(own: Option<u32>, stride: u32) -> bool
    ensures { result ≡ agrees own stride }
{
    match own {
        None => true,
        Some(own) => own == stride,
    }
}
