// Which buffer views hold images.
ghost use Rattle.std.specs.Prelude.{◌≡◌, IfOk, map};
ghost use Rattle.std.specs.List.{range_with_len};
ghost use Rattle.gp_storage.specs.Readers.{has_image};
ghost use Rattle.gp_storage.specs.Shared.{placed};

use gp_host::NoMemory;
use std::alloc::Global;

/// Of each view, of which there are so many, whether an image refers to it.
pub(crate) fn image_views(
    alloc: Global,
    images: &[Option<u32>],
    views: usize,
) -> Result<Vec<bool>, NoMemory>
    ensures { IfOk result (λ v. v.items ≡ map (has_image images.now) (range_with_len 0 views)) }
{
    let mut named = vec![in alloc; false; views]?;
    'images: for at in 0..images.len() {
        if let Some(view) = placed(images[at], views) {
            named[view] = true;
        }
    }
    Ok(named)
}

/// A number that is below the count.
pub(crate) fn placed(number: Option<u32>, count: usize) -> Option<usize>
    ensures { result ≡ placed count number }
{
    match number {
        Some(number) if (number as usize) < count => Some(number as usize),
        _ => None,
    }
}
