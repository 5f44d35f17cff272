//! Small assets in which each view holds zeros, and which of their views are stored as streams.
ghost use Rattle.std.specs.Prelude.{◌≡◌, None, true};
ghost use Rattle.std.specs.List.{All};
ghost use Rattle.gp_rules.specs.declared.storage.View.{View as PlainView};

use crate::{StoredViews, store_views};
use gp_asset::{Form, Refusal, read_asset};
use gp_json::read;
use gp_rules::{StreamMode, View};
use std::alloc::Global;
use std::test::Fail;

// Sixteen floats.
const FLOATS: &[u8] =
    br#"{"buffers":[{"byteLength":64}],"bufferViews":[{"buffer":0,"byteLength":64}],"accessors":[{"bufferView":0,"componentType":5126,"count":16,"type":"SCALAR"}]}"#;

// The same, and an image in the same view.
const IMAGE: &[u8] =
    br#"{"buffers":[{"byteLength":64}],"bufferViews":[{"buffer":0,"byteLength":64}],"accessors":[{"bufferView":0,"componentType":5126,"count":16,"type":"SCALAR"}],"images":[{"bufferView":0,"mimeType":"image/png"}]}"#;

// The views of an asset over 64 zeros.
fn stored(alloc: Global, text: &[u8], moved: &[bool]) -> Result<StoredViews, Refusal> {
    let tree = match read(alloc, text) {
        Ok(tree) => tree,
        Err(refusal) => return Err(Refusal::from(refusal)),
    };
    let asset = match read_asset(alloc, &tree, Some(&[0; 64]), Form::Plain) {
        Ok(asset) => asset,
        Err(refusal) => return Err(Refusal::from(refusal)),
    };
    if !are_plain(asset.views()) {
        return Err(Refusal::OutputTooLarge);
    }
    match store_views(alloc, &asset, moved) {
        Ok(stored) => Ok(stored),
        Err(_) => Err(Refusal::Memory),
    }
}

// Whether no view is compressed.
fn are_plain(views: &[View]) -> bool
    ensures { result ≡ true → All (λ (v : PlainView). v.packed ≡ None) views.now }
{
    views.iter().all(|view| view.packed.is_none())
}

#[test]
fn zeros_are_stored_as_a_stream(rt: HostRuntime) -> Result<(), Fail> {
    let stored = stored(rt.alloc(), FLOATS, &[])?;
    match stored.as_slice() {
        [Some(stream)] => {
            assert_eq!(rt; stream.coding.mode, StreamMode::Attributes);
            assert_eq!(rt; stream.coding.stride, 4);
            assert_eq!(rt; stream.bytes.as_slice().len(), 37);
        }
        _ => assert!(rt; false),
    }
    Ok(())
}

#[test]
fn images_stay_plain(rt: HostRuntime) -> Result<(), Fail> {
    let stored = stored(rt.alloc(), IMAGE, &[])?;
    assert!(rt; matches!(stored.as_slice(), [None]));
    Ok(())
}

#[test]
fn accessors_that_move_are_no_readers(rt: HostRuntime) -> Result<(), Fail> {
    let stored = stored(rt.alloc(), FLOATS, &[true])?;
    assert!(rt; matches!(stored.as_slice(), [None]));
    Ok(())
}
