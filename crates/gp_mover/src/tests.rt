// A small group that moves.
ghost use Rattle.std.specs.Prelude.{◌≡◌, true};
ghost use Rattle.std.specs.List.{All};
ghost use Rattle.gp_asset.specs.Contents.{plain_views};
ghost use Rattle.gp_elements.specs.Held.{HasEvery, IsSound};

use super::*;
use gp_alias::groups;
use gp_asset::{Asset, Form, Refusal, ViewBytes, read_asset};
use gp_host::NoMemory;
use gp_json::read;
use std::alloc::Global;
use std::test::Fail;

// A group in its new order, and the bytes of its last column and of its first list.
#[derive(Drop)]
struct Last {
    moved: MovedGroup,
    column: Vec<u8>,
    list: Vec<u8>,
}

// The last group of an asset over these bytes in its new order, where it may move. Views that aren't all held count as want of memory.
fn move_last_of(alloc: Global, text: &[u8], bin: &[u8]) -> Result<Option<Last>, Refusal> {
    let tree = match read(alloc, text) {
        Ok(tree) => tree,
        Err(refusal) => return Err(Refusal::from(refusal)),
    };
    let asset = match read_asset(alloc, &tree, Some(bin), Form::Plain) {
        Ok(asset) => asset,
        Err(refusal) => return Err(Refusal::from(refusal)),
    };
    if !has_every(&asset) {
        return Err(Refusal::Memory);
    }
    match move_last(alloc, &asset, &asset) {
        Ok(moved) => Ok(moved),
        Err(_) => Err(Refusal::Memory),
    }
}

// Whether the bytes of each view are held, as many as it has.
fn has_every(asset: &Asset<'_>) -> bool
    ensures { result ≡ true → HasEvery asset.now.views (plain_views asset.now) }
{
    let views = asset.views();
    'views: for at in 0..views.len() {
        if !asset.has(at) || asset.view(at).len() != views[at].length as usize {
            return false;
        }
    }
    true
}

fn move_last<V: ViewBytes>(
    alloc: Global,
    asset: &Asset<'_>,
    views: &V,
) -> Result<Option<Last>, NoMemory>
    requires views { HasEvery asset.now.views (V.views views.now) }
    requires sound { All (IsSound asset.now.views) asset.now.accessors }
{
    let mut all = groups(alloc, asset, views)?.into_vec();
    let Some(group) = all.pop() else {
        return Ok(None);
    };
    if !group.movable || group.columns.as_slice().is_empty() {
        return Ok(None);
    }
    let moved = move_group(alloc, asset, views, group)?;
    let columns = moved.group.columns.as_slice().len();
    if columns == 0 || moved.corners.ends.as_slice().is_empty() {
        return Ok(None);
    }
    let column = column_bytes(alloc, asset, &moved, columns - 1)?;
    let list = list_bytes(alloc, &moved, 0)?;
    Ok(Some(Last {
        moved,
        column,
        list,
    }))
}

// Two primitives of triangles that share an accessor of six elements.
const SHARED: &[u8] =
    br#"{"buffers":[{"byteLength":12}],"bufferViews":[{"buffer":0,"byteLength":6},{"buffer":0,"byteOffset":6,"byteLength":6}],"accessors":[{"bufferView":0,"componentType":5121,"count":6,"type":"SCALAR"},{"bufferView":1,"componentType":5121,"count":6,"type":"SCALAR"}],"meshes":[{"primitives":[{"attributes":{"POSITION":0,"_N":1}},{"attributes":{"POSITION":0}}]}]}"#;

#[test]
fn equal_vertices_are_merged(rt: HostRuntime) -> Result<(), Fail> {
    let bin = [10, 11, 12, 10, 12, 13, 1, 1, 1, 2, 1, 1];
    match &move_last_of(rt.alloc(), SHARED, &bin)? {
        Some(last) => {
            let moved = &last.moved;
            assert_eq!(rt; moved.size, 2);
            assert_eq!(rt;
                moved.records.as_slice(),
                [10, 1, 11, 1, 12, 1, 10, 2, 13, 1].as_slice()
            );
            assert_eq!(rt;
                moved.corners.joined.as_slice(),
                [0, 1, 2, 3, 2, 4].as_slice()
            );
            assert_eq!(rt; moved.corners.ends.as_slice(), [6].as_slice());
            assert_eq!(rt;
                last.column.as_slice(),
                [1, 0, 0, 0, 1, 0, 0, 0, 1, 0, 0, 0, 2, 0, 0, 0, 1, 0, 0, 0].as_slice()
            );
            assert_eq!(rt;
                last.list.as_slice(),
                [0, 0, 1, 0, 2, 0, 3, 0, 2, 0, 4, 0].as_slice()
            );
        }
        None => assert!(rt; false),
    }
    Ok(())
}
