//! All edits once, from text to text, and the entries of two groups.
use crate::{
    AccessorMove, Entry, GroupEdit, MadeList, MadeView, MeshLists, Moves, Part, ViewNumbers,
    edit_groups, first_values, group_entries, placed_entries, written_accessors,
};
use gp_host::{NoMemory, Numbers};
use gp_json::{print, read};
use std::alloc::Global;
use std::test::Fail;

// A column of six vertices; a list with a `sparse` alone; a scalar with a `sparse` that stays; an image. Two primitives, one of them
// without `indices`.
const BEFORE: &[u8] =
    br#"{"accessors":[{"bufferView":0,"byteOffset":8,"componentType":5126,"count":6,"max":[1],"min":[0],"type":"SCALAR"},{"componentType":5121,"count":6,"max":[5],"min":[0],"sparse":{"count":1,"indices":{"bufferView":0,"componentType":5121},"values":{"bufferView":0}},"type":"SCALAR"},{"bufferView":1,"byteOffset":4,"componentType":5126,"count":2,"sparse":{"count":1,"indices":{"bufferView":1,"componentType":5121},"values":{"bufferView":1,"byteOffset":4}},"type":"SCALAR"}],"bufferViews":[{"buffer":0,"byteLength":32},{"buffer":0,"byteLength":20,"byteOffset":32}],"images":[{"bufferView":1,"mimeType":"image/png"},{"uri":"a.png"}],"meshes":[{"primitives":[{"attributes":{"POSITION":0},"indices":1},{"attributes":{"POSITION":0}}]},{"primitives":[{"attributes":{}}]}]}"#;

// Five vertices are left, the first view is dropped, and three are made.
const AFTER: &[u8] =
    br#"{"accessors":[{"bufferView":1,"componentType":5126,"count":5,"max":[1],"min":[0],"type":"SCALAR"},{"componentType":5123,"count":6,"type":"SCALAR","bufferView":2},{"bufferView":0,"byteOffset":4,"componentType":5126,"count":2,"sparse":{"count":1,"indices":{"bufferView":0,"componentType":5121},"values":{"bufferView":0,"byteOffset":4}},"type":"SCALAR"},{"bufferView":3,"componentType":5123,"count":6,"type":"SCALAR"}],"bufferViews":[{"buffer":0,"byteLength":20,"byteOffset":32},{"buffer":0,"byteOffset":0,"byteLength":20,"byteStride":4,"target":34962},{"buffer":0,"byteOffset":0,"byteLength":12,"target":34963},{"buffer":0,"byteOffset":0,"byteLength":12,"target":34963}],"images":[{"bufferView":0,"mimeType":"image/png"},{"uri":"a.png"}],"meshes":[{"primitives":[{"attributes":{"POSITION":0},"indices":1},{"attributes":{"POSITION":0},"indices":3}]},{"primitives":[{"attributes":{}}]}]}"#;

#[test]
fn a_group_is_moved(rt: HostRuntime) -> Result<(), Fail> {
    let alloc = rt.alloc();
    let mut listed = Vec::new(alloc);
    listed.push(Some(3))?;
    listed.push(Some(3))?;
    let moves = Moves {
        accessors: &[
            AccessorMove::Column { view: 1, count: 5 },
            AccessorMove::Corners {
                view: 2,
                component: 5123,
            },
            AccessorMove::Stays,
        ],
        lists: &[MadeList {
            view: 3,
            component: 5123,
            count: 6,
        }],
        meshes: &[MeshLists::from_vec(listed)],
        views: ViewNumbers {
            numbers: &[None, Some(0)],
            dropped: 1,
        },
        made: &[
            MadeView {
                length: 20,
                stride: Some(4),
            },
            MadeView {
                length: 12,
                stride: None,
            },
            MadeView {
                length: 12,
                stride: None,
            },
        ],
    };
    let mut root = read(alloc, BEFORE)?;
    edit_groups(alloc, &mut root, &moves)?;
    let text = print(alloc, &root)?;
    assert_eq!(rt; text.as_slice(), AFTER);
    Ok(())
}

fn numbers_of(alloc: Global, numbers: &[u32]) -> Result<Numbers, NoMemory> {
    let mut items = Vec::new(alloc);
    items.extend_from_slice(numbers)?;
    Ok(Numbers::from_vec(items))
}

fn entry(number: u32, value: u32) -> Entry {
    Entry { number, value }
}

#[test]
fn groups_have_entries(rt: HostRuntime) -> Result<(), Fail> {
    let alloc = rt.alloc();
    let groups = [
        GroupEdit {
            primitives: numbers_of(alloc, &[0, 2])?,
            columns: numbers_of(alloc, &[3, 4])?,
            lists: numbers_of(alloc, &[1])?,
            list_accessor: Some(6),
            count: 6,
            records: 5,
        },
        GroupEdit {
            primitives: numbers_of(alloc, &[1])?,
            columns: numbers_of(alloc, &[0])?,
            lists: numbers_of(alloc, &[5])?,
            list_accessor: None,
            count: 3,
            records: 3,
        },
    ];
    let columns = group_entries(alloc, &groups, Part::Columns)?;
    assert_eq!(rt;
        columns.as_slice(),
        [entry(3, 0), entry(4, 0), entry(0, 1)].as_slice()
    );
    let written = written_accessors(alloc, &groups)?;
    assert_eq!(rt; written.as_slice(), [3, 4, 1, 6, 0, 5].as_slice());
    let placed = placed_entries(alloc, &[7, 9])?;
    assert_eq!(rt; placed.as_slice(), [entry(7, 0), entry(9, 1)].as_slice());
    Ok(())
}

#[test]
fn the_first_entry_counts(rt: HostRuntime) -> Result<(), Fail> {
    let entries = [entry(2, 5), entry(0, 8), entry(2, 6), entry(3, 1)];
    let values = first_values(rt.alloc(), &entries, 3)?;
    assert_eq!(rt; values.as_slice(), [Some(8), None, Some(5)].as_slice());
    Ok(())
}
