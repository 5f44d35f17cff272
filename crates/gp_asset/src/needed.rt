// Which buffers need their bytes.
ghost use Rattle.std.specs.Prelude.{◌≡◌, IfOk, map};
ghost use Rattle.std.specs.List.{range_with_len};
ghost use Rattle.gp_asset.specs.Buffers.{is_needed, buffer_in_use};

use gp_fields::ViewFields;
use gp_host::NoMemory;
use std::alloc::Global;

/// Of each buffer whether a view without a compressed form, or a compressed form, refers to it.
pub(crate) fn needed_buffers(
    alloc: Global,
    views: &[ViewFields<'_>],
    buffers: usize,
) -> Result<Vec<bool>, NoMemory>
    ensures { IfOk result (λ v. v.items ≡ map (is_needed views.now) (range_with_len 0 buffers)) }
{
    let mut needed = vec![in alloc; false; buffers]?;
    'views: for at in 0..views.len() {
        let buffer = buffer_in_use(&views[at]) as usize;
        if buffer < buffers {
            needed[buffer] = true;
        }
    }
    Ok(needed)
}

// The buffer of the stream where the view has a compressed form, else its own.
fn buffer_in_use(view: &ViewFields<'_>) -> u32
    ensures { result ≡ buffer_in_use view.now.buffer view.now.packed }
{
    match &view.packed {
        None => view.buffer,
        Some(packed) => packed.buffer,
    }
}
