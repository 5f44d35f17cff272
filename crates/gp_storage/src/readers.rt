// Who reads a buffer view.
ghost use Rattle.std.specs.Prelude.{◌≡◌, IfOk, map, length};
ghost use Rattle.std.specs.List.{range_with_len};
ghost use Rattle.gp_storage.specs.Readers.{readers, is_flagged};
ghost use Rattle.gp_storage.specs.Shared.{shared_by, view_read};

use crate::images::placed;
use crate::shared::Shared;
use crate::usage::usages;
use gp_asset::Asset;
use gp_host::NoMemory;
use std::alloc::Global;

/// Of each view what its readers have in common, where the flagged accessors move.
pub(crate) fn shared_by_readers(
    alloc: Global,
    asset: &Asset<'_>,
    moved: &[bool],
) -> Result<Vec<Shared>, NoMemory>
    ensures { IfOk result (λ v. v.items ≡ map (λ at. shared_by asset.now.uses (readers moved.now asset.now.accessors at)) (range_with_len 0 (length asset.now.views))) }
{
    let accessors = asset.accessors();
    let views = asset.views().len();
    let usages = usages(alloc, asset.uses(), accessors.len())?;
    let mut shared = vec![in alloc; Shared::none(); views]?;
    'accessors: for at in 0..accessors.len() {
        if let Some(view) = view_read(moved, at, accessors[at].view, views) {
            shared[view] = shared[view].with(&accessors[at], usages[at].is_list());
        }
    }
    Ok(shared)
}

// The view of accessor `at`, where it has one and doesn't move.
fn view_read(moved: &[bool], at: usize, view: Option<u32>, views: usize) -> Option<usize>
    ensures { result ≡ view_read moved.now at view views }
{
    if is_flagged(moved, at) {
        None
    } else {
        placed(view, views)
    }
}

// Whether the accessor with this number moves.
fn is_flagged(moved: &[bool], at: usize) -> bool
    ensures { result ≡ is_flagged moved.now at }
{
    at < moved.len() && moved[at]
}
