// The rows of an accessor and of its sparse part (sections 5.1 to 5.4).
use super::{Kind, Row, assert_rows, assert_texts};
use crate::Place;
use std::test::Fail;

const FRAME: &str =
    r#"{"buffers":[{"byteLength":1}],"bufferViews":[{"buffer":0,"byteLength":1}],"accessors":[{"componentType":1,"count":1,"type":"a"},"#;

const SPARSE: &str =
    r#"{"buffers":[{"byteLength":1}],"bufferViews":[{"buffer":0,"byteLength":1}],"accessors":[{"componentType":1,"count":1,"type":"a"},{"componentType":1,"count":1,"type":"a","sparse":"#;

#[test]
fn refuses_an_accessor(rt: HostRuntime) -> Result<(), Fail> {
    const ROWS: &[Row] = &[
        ("", Kind::Object, ""),
        (
            r#"{"componentType":"#,
            Kind::Whole,
            r#","count":1,"type":"a"}"#,
        ),
        (
            r#"{"componentType":1,"count":"#,
            Kind::Whole,
            r#","type":"a"}"#,
        ),
        (r#"{"componentType":1,"count":1,"type":"#, Kind::Text, "}"),
        (
            r#"{"componentType":1,"count":1,"type":"a","bufferView":"#,
            Kind::Reference,
            "}",
        ),
        (
            r#"{"componentType":1,"count":1,"type":"a","byteOffset":"#,
            Kind::Whole,
            "}",
        ),
        (
            r#"{"componentType":1,"count":1,"type":"a","sparse":"#,
            Kind::Object,
            "}",
        ),
    ];
    assert_rows(&rt, rt.alloc(), (Place::Accessors, 1), (FRAME, "]}"), ROWS)
}

#[test]
fn refuses_a_sparse_part(rt: HostRuntime) -> Result<(), Fail> {
    const ROWS: &[Row] = &[
        (
            r#"{"count":"#,
            Kind::Whole,
            r#","indices":{"bufferView":0,"componentType":1},"values":{"bufferView":0}}}"#,
        ),
        (
            r#"{"count":1,"indices":"#,
            Kind::Object,
            r#","values":{"bufferView":0}}}"#,
        ),
        (
            r#"{"count":1,"indices":{"bufferView":0,"componentType":1},"values":"#,
            Kind::Object,
            "}}",
        ),
        (
            r#"{"count":1,"indices":{"componentType":1,"bufferView":"#,
            Kind::Reference,
            r#"},"values":{"bufferView":0}}}"#,
        ),
        (
            r#"{"count":1,"indices":{"bufferView":0,"componentType":1,"byteOffset":"#,
            Kind::Whole,
            r#"},"values":{"bufferView":0}}}"#,
        ),
        (
            r#"{"count":1,"indices":{"bufferView":0,"componentType":"#,
            Kind::Whole,
            r#"},"values":{"bufferView":0}}}"#,
        ),
        (
            r#"{"count":1,"indices":{"bufferView":0,"componentType":1},"values":{"bufferView":"#,
            Kind::Reference,
            "}}}",
        ),
        (
            r#"{"count":1,"indices":{"bufferView":0,"componentType":1},"values":{"bufferView":0,"byteOffset":"#,
            Kind::Whole,
            "}}}",
        ),
    ];
    assert_rows(&rt, rt.alloc(), (Place::Accessors, 1), (SPARSE, "]}"), ROWS)
}

#[test]
fn takes_an_accessor(rt: HostRuntime) -> Result<(), Fail> {
    const TEXTS: &[&str] = &[
        r#"{"componentType":0,"count":0,"type":""}"#,
        r#"{"type":"MAT4","normalized":null,"byteOffset":4294967295,"count":4294967295,"bufferView":0,"componentType":4294967295}"#,
        r#"{"componentType":1,"count":1,"type":"a","sparse":{"count":1,"indices":{"bufferView":0,"componentType":1},"values":{"bufferView":0}}}"#,
        r#"{"componentType":1,"count":1,"type":"a","sparse":{"values":{"byteOffset":1,"bufferView":0},"count":1,"indices":{"bufferView":0,"byteOffset":1,"componentType":1}}}"#,
    ];
    assert_texts(&rt, rt.alloc(), None, (FRAME, "]}"), TEXTS)
}

// Each member that has to be there, left out in turn.
#[test]
fn refuses_an_accessor_without_a_member(rt: HostRuntime) -> Result<(), Fail> {
    const TEXTS: &[&str] = &[
        r#"{"count":1,"type":"a"}"#,
        r#"{"componentType":1,"type":"a"}"#,
        r#"{"componentType":1,"count":1}"#,
    ];
    assert_texts(
        &rt,
        rt.alloc(),
        Some((Place::Accessors, 1)),
        (FRAME, "]}"),
        TEXTS,
    )
}

// Each member that has to be there, left out in turn.
#[test]
fn refuses_a_sparse_part_without_a_member(rt: HostRuntime) -> Result<(), Fail> {
    const TEXTS: &[&str] = &[
        r#"{"indices":{"bufferView":0,"componentType":1},"values":{"bufferView":0}}"#,
        r#"{"count":1,"values":{"bufferView":0}}"#,
        r#"{"count":1,"indices":{"bufferView":0,"componentType":1}}"#,
        r#"{"count":1,"indices":{"componentType":1},"values":{"bufferView":0}}"#,
        r#"{"count":1,"indices":{"bufferView":0},"values":{"bufferView":0}}"#,
        r#"{"count":1,"indices":{"bufferView":0,"componentType":1},"values":{}}"#,
    ];
    assert_texts(
        &rt,
        rt.alloc(),
        Some((Place::Accessors, 1)),
        (SPARSE, "}]}"),
        TEXTS,
    )
}
