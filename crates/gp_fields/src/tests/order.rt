// Members of the root, and the order in which they are looked at (section 5.17).
use super::{Case, Kind, assert_cases, assert_others, assert_texts};
use crate::Place;
use std::test::Fail;

#[test]
fn the_root_is_an_object(rt: HostRuntime) -> Result<(), Fail> {
    let place = Some((Place::Root, 0));
    assert_texts(&rt, rt.alloc(), place, ("", ""), Kind::Object.others())
}

#[test]
fn members_are_lists(rt: HostRuntime) -> Result<(), Fail> {
    const ROWS: &[(Place, &str)] = &[
        (Place::ExtensionsUsed, r#"{"extensionsUsed":"#),
        (Place::ExtensionsRequired, r#"{"extensionsRequired":"#),
        (Place::Buffers, r#"{"buffers":"#),
        (Place::BufferViews, r#"{"bufferViews":"#),
        (Place::Accessors, r#"{"accessors":"#),
        (Place::Meshes, r#"{"meshes":"#),
        (Place::Skins, r#"{"skins":"#),
        (Place::Animations, r#"{"animations":"#),
        (Place::Images, r#"{"images":"#),
    ];
    for &(member, before) in ROWS {
        let row = (before, Kind::List, "}");
        assert_others(&rt, rt.alloc(), (member, 0), ("", ""), row)?;
    }
    Ok(())
}

#[test]
fn names_of_extensions_are_texts(rt: HostRuntime) -> Result<(), Fail> {
    const ROWS: &[((Place, usize), &str, &str)] = &[
        ((Place::ExtensionsUsed, 0), r#"{"extensionsUsed":["#, "]}"),
        (
            (Place::ExtensionsUsed, 2),
            r#"{"extensionsUsed":["a","b","#,
            "]}",
        ),
        (
            (Place::ExtensionsUsed, 0),
            r#"{"extensionsUsed":["#,
            ",null]}",
        ),
        (
            (Place::ExtensionsRequired, 1),
            r#"{"extensionsRequired":["a","#,
            "]}",
        ),
        (
            (Place::ExtensionsUsed, 1),
            r#"{"extensionsRequired":[0],"extensionsUsed":["a","#,
            "]}",
        ),
    ];
    for &(place, before, after) in ROWS {
        let row = (before, Kind::Text, after);
        assert_others(&rt, rt.alloc(), place, ("", ""), row)?;
    }
    Ok(())
}

// In each text some members are broken, those that are looked at first last.
#[test]
fn the_first_member_is_named(rt: HostRuntime) -> Result<(), Fail> {
    const CASES: &[Case] = &[
        (
            r#"{"images":null,"animations":null,"skins":null,"meshes":null,"accessors":null,"bufferViews":null,"buffers":null,"extensionsRequired":null,"extensionsUsed":null}"#,
            Some((Place::ExtensionsUsed, 0)),
        ),
        (
            r#"{"images":null,"animations":null,"skins":null,"meshes":null,"accessors":null,"bufferViews":null,"buffers":null,"extensionsRequired":null}"#,
            Some((Place::ExtensionsRequired, 0)),
        ),
        (
            r#"{"images":null,"animations":null,"skins":null,"meshes":null,"accessors":null,"bufferViews":null,"buffers":null}"#,
            Some((Place::Buffers, 0)),
        ),
        (
            r#"{"images":null,"animations":null,"skins":null,"meshes":null,"accessors":null,"bufferViews":null}"#,
            Some((Place::BufferViews, 0)),
        ),
        (
            r#"{"images":null,"animations":null,"skins":null,"meshes":null,"accessors":null}"#,
            Some((Place::Accessors, 0)),
        ),
        (
            r#"{"images":null,"animations":null,"skins":null,"meshes":null}"#,
            Some((Place::Meshes, 0)),
        ),
        (
            r#"{"images":null,"animations":null,"skins":null}"#,
            Some((Place::Skins, 0)),
        ),
        (
            r#"{"images":null,"animations":null}"#,
            Some((Place::Animations, 0)),
        ),
        (r#"{"images":null}"#, Some((Place::Images, 0))),
    ];
    assert_cases(&rt, rt.alloc(), "", CASES)
}

#[test]
fn the_first_item_is_named(rt: HostRuntime) -> Result<(), Fail> {
    const CASES: &[Case] = &[
        (
            r#"{"extensionsUsed":["a",1,null,"b",1]}"#,
            Some((Place::ExtensionsUsed, 1)),
        ),
        (
            r#"{"extensionsRequired":["a","b",1,null]}"#,
            Some((Place::ExtensionsRequired, 2)),
        ),
        (
            r#"{"buffers":[{"byteLength":1},{},0,{"byteLength":1}]}"#,
            Some((Place::Buffers, 1)),
        ),
        (
            r#"{"buffers":[{"byteLength":1}],"bufferViews":[{"buffer":0,"byteLength":1},{"buffer":0,"byteLength":1},{"buffer":1,"byteLength":1},{}]}"#,
            Some((Place::BufferViews, 2)),
        ),
        (
            r#"{"accessors":[{"componentType":1,"count":1,"type":"a"},{"componentType":1,"count":1.0,"type":"a"},{}]}"#,
            Some((Place::Accessors, 1)),
        ),
        (
            r#"{"meshes":[{"primitives":[]},{"primitives":[0]},{}]}"#,
            Some((Place::Meshes, 1)),
        ),
        (
            r#"{"skins":[{},{},{"inverseBindMatrices":0},null]}"#,
            Some((Place::Skins, 2)),
        ),
        (
            r#"{"animations":[{"samplers":[]},{"samplers":[{}]},{}]}"#,
            Some((Place::Animations, 1)),
        ),
        (
            r#"{"images":[{"bufferView":0},[],{}]}"#,
            Some((Place::Images, 0)),
        ),
    ];
    assert_cases(&rt, rt.alloc(), "", CASES)
}

// Two buffers, three buffer views and four accessors.
const THINGS: &str =
    r#"{"buffers":[{"byteLength":1},{"byteLength":1}],"bufferViews":[{"buffer":0,"byteLength":1},{"buffer":0,"byteLength":1},{"buffer":1,"byteLength":1}],"accessors":[{"componentType":1,"count":1,"type":"a"},{"componentType":1,"count":1,"type":"a"},{"componentType":1,"count":1,"type":"a"},{"bufferView":2,"componentType":1,"count":1,"type":"a"}]"#;

#[test]
fn references_are_below_the_lengths(rt: HostRuntime) -> Result<(), Fail> {
    const CASES: &[Case] = &[
        ("}", None),
        (r#","images":[{"bufferView":2}]}"#, None),
        (r#","images":[{"bufferView":3}]}"#, Some((Place::Images, 0))),
        (r#","skins":[{"inverseBindMatrices":3}]}"#, None),
        (
            r#","skins":[{"inverseBindMatrices":4}]}"#,
            Some((Place::Skins, 0)),
        ),
        (
            r#","meshes":[{"primitives":[{"attributes":{"A":3},"indices":3,"targets":[{"A":3}]}]}]}"#,
            None,
        ),
        (
            r#","meshes":[{"primitives":[{"attributes":{"A":4}}]}]}"#,
            Some((Place::Meshes, 0)),
        ),
        (
            r#","meshes":[{"primitives":[{"attributes":{},"indices":4}]}]}"#,
            Some((Place::Meshes, 0)),
        ),
        (
            r#","meshes":[{"primitives":[{"attributes":{},"targets":[{"A":4}]}]}]}"#,
            Some((Place::Meshes, 0)),
        ),
        (
            r#","animations":[{"samplers":[{"input":3,"output":3}]}]}"#,
            None,
        ),
        (
            r#","animations":[{"samplers":[{"input":4,"output":3}]}]}"#,
            Some((Place::Animations, 0)),
        ),
        (
            r#","animations":[{"samplers":[{"input":3,"output":4}]}]}"#,
            Some((Place::Animations, 0)),
        ),
    ];
    assert_cases(&rt, rt.alloc(), THINGS, CASES)
}

// A member that is absent is an empty list, to which no reference points.
#[test]
fn members_may_be_absent(rt: HostRuntime) -> Result<(), Fail> {
    const CASES: &[Case] = &[
        ("{}", None),
        (
            r#"{"asset":null,"scene":"","nodes":{},"extensions":[]}"#,
            None,
        ),
        (
            r#"{"extensionsUsed":[],"extensionsRequired":["a"],"buffers":[],"bufferViews":[],"accessors":[],"meshes":[],"skins":[],"animations":[],"images":[]}"#,
            None,
        ),
        (
            r#"{"skins":[{}],"animations":[{"samplers":[]}],"images":[{},{}]}"#,
            None,
        ),
        (
            r#"{"bufferViews":[{"buffer":0,"byteLength":1}]}"#,
            Some((Place::BufferViews, 0)),
        ),
        (
            r#"{"accessors":[{"bufferView":0,"componentType":1,"count":1,"type":"a"}]}"#,
            Some((Place::Accessors, 0)),
        ),
        (
            r#"{"meshes":[{"primitives":[{"attributes":{"A":0}}]}]}"#,
            Some((Place::Meshes, 0)),
        ),
        (
            r#"{"skins":[{"inverseBindMatrices":0}]}"#,
            Some((Place::Skins, 0)),
        ),
        (
            r#"{"animations":[{"samplers":[{"input":0,"output":0}]}]}"#,
            Some((Place::Animations, 0)),
        ),
        (r#"{"images":[{"bufferView":0}]}"#, Some((Place::Images, 0))),
    ];
    assert_cases(&rt, rt.alloc(), "", CASES)
}
