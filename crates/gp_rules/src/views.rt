// Buffer views (glTF 2.0, section 5.11), against their buffers.
ghost use Rattle.std.specs.Prelude.{◌≡◌};
ghost use Rattle.gp_rules.specs.Checks.{each, Answers};
ghost use Rattle.gp_rules.specs.Views.{buffer_length, runs_past, is_stride, is_stride_of_view, is_bad_view, view_of};

use crate::fault::{AssetFault, AssetRefusal};
use crate::packed::read_packed;
use crate::storage::View;
use gp_fields::{BufferFields, ViewFields};
use std::alloc::Global;

const MAX_STRIDE: u32 = 252;

/// The views of an asset, or the first fault of one.
pub fn read_views(
    alloc: Global,
    views: &[ViewFields<'_>],
    buffers: &[BufferFields<'_>],
) -> Result<Vec<View>, AssetRefusal>
    ensures { Answers (each (view_of buffers.now) 0 views.now) (λ v. v.items) result }
{
    let mut read = Vec::new(alloc);
    'views: for at in 0..views.len() {
        let view = read_view(&views[at], at, buffers).map_err(|fault| AssetRefusal::Fault(fault))?;
        read.push(view).map_err(|_| AssetRefusal::Memory)?;
    }
    Ok(read)
}

#[tactic(auto, unfolding(crate::specs::Views::view_of))]
fn read_view(
    view: &ViewFields<'_>,
    at: usize,
    buffers: &[BufferFields<'_>],
) -> Result<View, AssetFault>
    ensures { result ≡ view_of buffers.now at view.now }
{
    if is_bad_view(view, buffers) {
        return Err(AssetFault::View { at });
    }
    let packed = read_packed(view, at, buffers)?;
    Ok(View {
        buffer: view.buffer,
        offset: view.offset,
        length: view.length,
        stride: view.stride,
        packed,
    })
}

// Whether a view is empty, has another stride than is allowed, or runs past its buffer where its bytes are there.
#[tactic(auto, unfolding(crate::specs::Views::is_bad_view))]
fn is_bad_view(view: &ViewFields<'_>, buffers: &[BufferFields<'_>]) -> bool
    ensures { result ≡ is_bad_view buffers.now view.now }
{
    view.length == 0
        || !is_stride_of_view(view.stride)
        || (view.packed.is_none() && runs_past(buffers, view.buffer, view.offset, view.length))
}

fn is_stride_of_view(stride: Option<u32>) -> bool
    ensures { result ≡ is_stride_of_view stride }
{
    match stride {
        None => true,
        Some(stride) => is_stride(stride, MAX_STRIDE),
    }
}

/// Whether a stride is a multiple of 4, from 4 to the most.
pub(crate) fn is_stride(stride: u32, most: u32) -> bool
    ensures { result ≡ is_stride most stride }
{
    stride % 4 == 0 && 4 <= stride && stride <= most
}

/// Whether a slice ends behind the length that its buffer says.
pub(crate) fn runs_past(buffers: &[BufferFields<'_>], at: u32, offset: u32, length: u32) -> bool
    ensures { result ≡ runs_past buffers.now at offset length }
{
    let end = offset as u64 + length as u64;
    (buffer_length(buffers, at) as u64) < end
}

// The length that a buffer says; 0 where there is none.
fn buffer_length(buffers: &[BufferFields<'_>], at: u32) -> u32
    ensures { result ≡ buffer_length buffers.now at }
{
    match buffers.get(at as usize) {
        None => 0,
        Some(buffer) => buffer.length,
    }
}
