// Groups of small assets, what they hold, and the views that stay.
ghost use Rattle.std.specs.Prelude.{◌≡◌, ◌<◌, map, option_map, true, Some, length, All};
ghost use Rattle.gp_rules.specs.declared.storage.View.{View as AnyView};
ghost use Rattle.gp_asset.specs.Contents.{plain_if, plain_views};
ghost use Rattle.gp_elements.specs.Held.{HasEvery, contents_of, IsSound};
ghost use Rattle.gp_alias.specs.Movable.{groups};

mod classes;
mod conditions;
mod rows;

use super::*;
use gp_asset::{Asset, Form, Refusal, ViewBytes, read_asset};
use gp_host::NoMemory;
use gp_json::read;
use std::alloc::Global;
use std::test::Fail;

// What is found of an asset.
#[derive(Drop)]
struct Whole {
    groups: Groups,
    // The new numbers of views.
    numbers: Vec<Option<u32>>,
    // What the first group holds, where it moves.
    parts: Option<(Vec<u8>, Corners)>,
    // What primitive 0 draws.
    list: Option<Vec<u32>>,
}

// What is found of an asset over these bytes. Views that aren't all held count as want of memory.
fn find_in(alloc: Global, text: &[u8], bin: &[u8]) -> Result<Whole, Refusal> {
    let tree = match read(alloc, text) {
        Ok(tree) => tree,
        Err(refusal) => return Err(Refusal::from(refusal)),
    };
    let asset = match read_asset(alloc, &tree, Some(bin), Form::Plain) {
        Ok(asset) => asset,
        Err(refusal) => return Err(Refusal::from(refusal)),
    };
    if !has_every(&asset) {
        return Err(Refusal::Memory);
    }
    match find(alloc, &asset, &asset) {
        Ok(whole) => Ok(whole),
        Err(_) => Err(Refusal::Memory),
    }
}

// Whether the bytes of each view are held, as many as it has.
fn has_every(asset: &Asset<'_>) -> bool
    ensures { result ≡ true → HasEvery asset.now.views (plain_views asset.now) }
{
    let views = asset.views();
    'views: for at in 0..views.len() {
        if !asset.has(at) || asset.view(at).len() != views[at].length as usize {
            return false;
        }
    }
    true
}

fn find<V: ViewBytes>(alloc: Global, asset: &Asset<'_>, views: &V) -> Result<Whole, NoMemory>
    requires views { HasEvery asset.now.views (V.views views.now) }
    requires sound { All (IsSound asset.now.views) asset.now.accessors }
{
    let groups = groups(alloc, asset, views)?;
    let numbers = survivors(alloc, asset, &groups)?;
    let parts = first_parts(alloc, asset, views, &groups)?;
    let list = if asset.primitives().is_empty() {
        None
    } else {
        plain_list(alloc, asset, views, 0)?
    };
    Ok(Whole {
        groups,
        numbers,
        parts,
        list,
    })
}

// What the first group holds, where it moves.
fn first_parts<V: ViewBytes>(
    alloc: Global,
    asset: &Asset<'_>,
    views: &V,
    all: &Groups,
) -> Result<Option<(Vec<u8>, Corners)>, NoMemory>
    requires views { HasEvery asset.now.views (V.views views.now) }
    requires sound { All (IsSound asset.now.views) asset.now.accessors }
    requires all { all.now ≡ groups asset.now (contents_of (V.views views.now)) }
{
    let groups = all.as_slice();
    if groups.is_empty() || !groups[0].movable {
        return Ok(None);
    }
    let bytes = gather(alloc, asset, views, &groups[0])?;
    let corners = corners(alloc, asset, views, &groups[0])?;
    Ok(Some((bytes, corners)))
}

// Two primitives of triangles that share an accessor of six elements.
const SHARED: &[u8] =
    br#"{"buffers":[{"byteLength":48}],"bufferViews":[{"buffer":0,"byteLength":24},{"buffer":0,"byteOffset":24,"byteLength":24}],"accessors":[{"bufferView":0,"componentType":5121,"count":6,"type":"VEC4"},{"bufferView":1,"componentType":5121,"count":6,"type":"VEC4"}],"meshes":[{"primitives":[{"attributes":{"POSITION":0,"_N":1}},{"attributes":{"POSITION":0}}]}]}"#;

// The same, and a primitive of points that uses it too.
const POINTS: &[u8] =
    br#"{"buffers":[{"byteLength":48}],"bufferViews":[{"buffer":0,"byteLength":24},{"buffer":0,"byteOffset":24,"byteLength":24}],"accessors":[{"bufferView":0,"componentType":5121,"count":6,"type":"VEC4"},{"bufferView":1,"componentType":5121,"count":6,"type":"VEC4"}],"meshes":[{"primitives":[{"attributes":{"POSITION":0,"_N":1}},{"attributes":{"POSITION":0}},{"mode":0,"attributes":{"POSITION":0}}]}]}"#;

// Six elements of accessor 0, and then of accessor 1.
const ELEMENTS: [u8; 48] = [
    10, 0, 0, 0, 11, 0, 0, 0, 12, 0, 0, 0, 10, 0, 0, 0, 12, 0, 0, 0, 13, 0, 0, 0, 1, 0, 0, 0, 1, 0,
    0, 0, 1, 0, 0, 0, 2, 0, 0, 0, 1, 0, 0, 0, 1, 0, 0, 0,
];

// Their records.
const RECORDS: [u8; 48] = [
    10, 0, 0, 0, 1, 0, 0, 0, 11, 0, 0, 0, 1, 0, 0, 0, 12, 0, 0, 0, 1, 0, 0, 0, 10, 0, 0, 0, 2, 0,
    0, 0, 12, 0, 0, 0, 1, 0, 0, 0, 13, 0, 0, 0, 1, 0, 0, 0,
];

// Three elements without a view, one of which `sparse` gives.
const SPARSE: &[u8] =
    br#"{"buffers":[{"byteLength":5}],"bufferViews":[{"buffer":0,"byteLength":1},{"buffer":0,"byteOffset":1,"byteLength":4}],"accessors":[{"componentType":5121,"count":3,"type":"VEC4","sparse":{"count":1,"indices":{"bufferView":0,"componentType":5121},"values":{"bufferView":1}}}],"meshes":[{"primitives":[{"attributes":{"POSITION":0}}]}]}"#;

// Two primitives over the same three vertices; the list of the second is after that of the first in one view.
const INDEXED: &[u8] =
    br#"{"buffers":[{"byteLength":20}],"bufferViews":[{"buffer":0,"byteLength":12},{"buffer":0,"byteOffset":12,"byteLength":8}],"accessors":[{"bufferView":0,"componentType":5121,"count":3,"type":"VEC4"},{"bufferView":1,"componentType":5121,"count":3,"type":"SCALAR"},{"bufferView":1,"byteOffset":3,"componentType":5121,"count":3,"type":"SCALAR"}],"meshes":[{"primitives":[{"attributes":{"POSITION":0},"indices":1},{"attributes":{"POSITION":0},"indices":2}]}],"images":[{"bufferView":0,"mimeType":"image/png"}]}"#;

#[test]
fn primitives_that_share_an_accessor_move_together(rt: HostRuntime) -> Result<(), Fail> {
    let whole = find_in(rt.alloc(), SHARED, &ELEMENTS)?;
    let groups = whole.groups.into_vec();
    assert_eq!(rt; groups.len(), 1);
    assert_eq!(rt; groups[0].primitives.as_slice(), [0, 1].as_slice());
    assert_eq!(rt; groups[0].columns.as_slice(), [0, 1].as_slice());
    assert!(rt; groups[0].lists.as_slice().is_empty());
    assert!(rt; groups[0].bare);
    assert_eq!(rt; groups[0].count, 6);
    assert_eq!(rt; whole.numbers.as_slice(), [None, None].as_slice());
    match &whole.parts {
        Some((records, corners)) => {
            assert_eq!(rt; records.as_slice(), RECORDS.as_slice());
            assert_eq!(rt; corners.joined.as_slice(), [0, 1, 2, 3, 4, 5].as_slice());
            assert_eq!(rt; corners.ends.as_slice(), [6].as_slice());
        }
        None => assert!(rt; false),
    }
    Ok(())
}

#[test]
fn primitives_whose_accessor_is_used_elsewhere_stay(rt: HostRuntime) -> Result<(), Fail> {
    let whole = find_in(rt.alloc(), POINTS, &ELEMENTS)?;
    assert_eq!(rt; whole.groups.as_slice().len(), 1);
    assert!(rt; !whole.groups.as_slice()[0].movable);
    assert!(rt; whole.parts.is_none());
    assert_eq!(rt; whole.numbers.as_slice(), [Some(0), Some(1)].as_slice());
    Ok(())
}

#[test]
fn values_of_sparse_stand_in_place(rt: HostRuntime) -> Result<(), Fail> {
    let whole = find_in(rt.alloc(), SPARSE, &[1, 1, 2, 3, 4])?;
    assert_eq!(rt; whole.numbers.as_slice(), [None, None].as_slice());
    match &whole.parts {
        Some((records, corners)) => {
            assert_eq!(rt;
                records.as_slice(),
                [0, 0, 0, 0, 1, 2, 3, 4, 0, 0, 0, 0].as_slice()
            );
            assert_eq!(rt; corners.joined.as_slice(), [0, 1, 2].as_slice());
        }
        None => assert!(rt; false),
    }
    Ok(())
}

#[test]
fn an_index_of_no_element_moves_nothing(rt: HostRuntime) -> Result<(), Fail> {
    let whole = find_in(rt.alloc(), SPARSE, &[3, 1, 2, 3, 4])?;
    assert!(rt; whole.parts.is_none());
    assert_eq!(rt; whole.numbers.as_slice(), [Some(0), Some(1)].as_slice());
    match &whole.list {
        Some(list) => assert_eq!(rt; list.as_slice(), [0, 1, 2].as_slice()),
        None => assert!(rt; false),
    }
    Ok(())
}

#[test]
fn lists_are_read_and_the_view_of_an_image_stays(rt: HostRuntime) -> Result<(), Fail> {
    let bin = [
        1, 2, 3, 4, 5, 6, 7, 8, 9, 10, 11, 12, 2, 0, 1, 0, 1, 2, 0, 0,
    ];
    let whole = find_in(rt.alloc(), INDEXED, &bin)?;
    assert_eq!(rt; whole.numbers.as_slice(), [Some(0), None].as_slice());
    match &whole.parts {
        Some((records, corners)) => {
            assert_eq!(rt; records.as_slice(), &bin[..12]);
            assert_eq!(rt; corners.joined.as_slice(), [2, 0, 1, 0, 1, 2].as_slice());
            assert_eq!(rt; corners.ends.as_slice(), [3, 6].as_slice());
        }
        None => assert!(rt; false),
    }
    match &whole.list {
        Some(list) => assert_eq!(rt; list.as_slice(), [2, 0, 1].as_slice()),
        None => assert!(rt; false),
    }
    Ok(())
}
