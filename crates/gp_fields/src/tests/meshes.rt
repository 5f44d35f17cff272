// The rows of a mesh and of its primitives (sections 5.23 and 5.24).
use super::{Kind, Row, assert_rows, assert_texts};
use crate::Place;
use std::test::Fail;

const FRAME: &str =
    r#"{"accessors":[{"componentType":1,"count":1,"type":"a"}],"meshes":[{"primitives":[]},"#;

#[test]
fn refuses_a_mesh(rt: HostRuntime) -> Result<(), Fail> {
    const ROWS: &[Row] = &[
        ("", Kind::Object, ""),
        (r#"{"primitives":"#, Kind::List, "}"),
        (r#"{"primitives":[{"attributes":{}},"#, Kind::Object, "]}"),
        (r#"{"primitives":[{"attributes":"#, Kind::Object, "}]}"),
        (
            r#"{"primitives":[{"attributes":{"A":"#,
            Kind::Reference,
            "}}]}",
        ),
        (
            r#"{"primitives":[{"attributes":{"A":0,"B":"#,
            Kind::Reference,
            "}}]}",
        ),
        (
            r#"{"primitives":[{"attributes":{}},{"attributes":{"A":"#,
            Kind::Reference,
            r#","B":0}}]}"#,
        ),
    ];
    assert_rows(&rt, rt.alloc(), (Place::Meshes, 1), (FRAME, "]}"), ROWS)
}

#[test]
fn refuses_what_a_primitive_may_have(rt: HostRuntime) -> Result<(), Fail> {
    const ROWS: &[Row] = &[
        (
            r#"{"primitives":[{"attributes":{},"indices":"#,
            Kind::Reference,
            "}]}",
        ),
        (
            r#"{"primitives":[{"attributes":{},"mode":"#,
            Kind::Whole,
            "}]}",
        ),
        (
            r#"{"primitives":[{"attributes":{},"targets":"#,
            Kind::List,
            "}]}",
        ),
        (
            r#"{"primitives":[{"attributes":{},"targets":["#,
            Kind::Object,
            "]}]}",
        ),
        (
            r#"{"primitives":[{"attributes":{},"targets":[{},"#,
            Kind::Object,
            "]}]}",
        ),
        (
            r#"{"primitives":[{"attributes":{},"targets":[{"A":"#,
            Kind::Reference,
            "}]}]}",
        ),
        (
            r#"{"primitives":[{"attributes":{},"targets":[{},{"A":0,"B":"#,
            Kind::Reference,
            "}]}]}",
        ),
    ];
    assert_rows(&rt, rt.alloc(), (Place::Meshes, 1), (FRAME, "]}"), ROWS)
}

#[test]
fn takes_a_mesh(rt: HostRuntime) -> Result<(), Fail> {
    const TEXTS: &[&str] = &[
        r#"{"primitives":[],"weights":null}"#,
        r#"{"primitives":[{"attributes":{}}]}"#,
        r#"{"primitives":[{"attributes":{"":0,"_A":0},"material":null}]}"#,
        r#"{"primitives":[{"targets":[],"indices":0,"mode":0,"attributes":{"A":0}},{"attributes":{}}]}"#,
        r#"{"primitives":[{"attributes":{},"mode":4294967295,"targets":[{},{"A":0,"B":0}]}]}"#,
    ];
    assert_texts(&rt, rt.alloc(), None, (FRAME, "]}"), TEXTS)
}

// Each member that has to be there, left out in turn.
#[test]
fn refuses_a_mesh_without_a_member(rt: HostRuntime) -> Result<(), Fail> {
    const TEXTS: &[&str] = &[
        r#"{}"#,
        r#"{"primitives":[{}]}"#,
        r#"{"primitives":[{"mode":4}]}"#,
        r#"{"primitives":[{"attributes":{}},{"indices":0}]}"#,
    ];
    assert_texts(
        &rt,
        rt.alloc(),
        Some((Place::Meshes, 1)),
        (FRAME, "]}"),
        TEXTS,
    )
}
