// Storing the views of an asset.
ghost use Rattle.std.specs.Prelude.{◌≡◌, IfOk, None};
ghost use Rattle.std.specs.List.{All};
ghost use Rattle.gp_rules.specs.declared.storage.View.{View as PlainView};
ghost use Rattle.gp_storage.specs.Shared.{coding_with};
ghost use Rattle.gp_storage.specs.Streams.{stream_of, stored_views};

use crate::choosing::choose_coding;
use crate::coding::Stream;
use crate::encoding::encode;
use crate::images::image_views;
use crate::readers::shared_by_readers;
use crate::shared::Shared;
use crate::stored::StoredViews;
use gp_asset::{Asset, ViewBytes};
use gp_host::NoMemory;
use gp_rules::View;
use std::alloc::Global;

/// The streams of the views of an asset, none of which is compressed yet, where the flagged accessors move: each view as
/// a stream exactly where it may be one and that has fewer bytes. It fails only for want of memory.
pub fn store_views(
    alloc: Global,
    asset: &Asset<'_>,
    moved: &[bool],
) -> Result<StoredViews, NoMemory>
    requires { All (λ (v : PlainView). v.packed ≡ None) asset.now.views }
    ensures { IfOk result (λ stored. stored ≡ stored_views asset.now moved.now) }
{
    let views = asset.views();
    let images = image_views(alloc, asset.images(), views.len())?;
    let shared = shared_by_readers(alloc, asset, moved)?;
    let mut streams = Vec::new(alloc);
    'turns: for at in 0..views.len() {
        let stream = store_view(alloc, &views[at], asset.view(at), images[at], &shared[at])?;
        streams.push(stream)?;
    }
    Ok(StoredViews::from_vec(streams))
}

// The stream of a view with these bytes.
fn store_view(
    alloc: Global,
    view: &View,
    bytes: &[u8],
    has_image: bool,
    shared: &Shared,
) -> Result<Option<Stream>, NoMemory>
    ensures { IfOk result (λ stream. stream ≡ stream_of (coding_with has_image shared.now view.now bytes.now) bytes.now) }
{
    let coding = choose_coding(view, bytes, has_image, shared);
    encode(alloc, coding, bytes)
}
