// The rows of a buffer view (section 5.11), and of its extension object.
use super::{Kind, Row, assert_rows, assert_texts};
use crate::Place;
use std::test::Fail;

const FRAME: &str = r#"{"buffers":[{"byteLength":1}],"bufferViews":[{"buffer":0,"byteLength":1},"#;

const PACKED: &str =
    r#"{"buffers":[{"byteLength":1}],"bufferViews":[{"buffer":0,"byteLength":1},{"buffer":0,"byteLength":1,"extensions":{"EXT_meshopt_compression":"#;

#[test]
fn refuses_a_view(rt: HostRuntime) -> Result<(), Fail> {
    const ROWS: &[Row] = &[
        ("", Kind::Object, ""),
        (r#"{"buffer":"#, Kind::Reference, r#","byteLength":1}"#),
        (r#"{"buffer":0,"byteLength":"#, Kind::Whole, "}"),
        (
            r#"{"buffer":0,"byteLength":1,"byteOffset":"#,
            Kind::Whole,
            "}",
        ),
        (
            r#"{"buffer":0,"byteLength":1,"byteStride":"#,
            Kind::Whole,
            "}",
        ),
        (
            r#"{"buffer":0,"byteLength":1,"extensions":"#,
            Kind::Object,
            "}",
        ),
    ];
    assert_rows(
        &rt,
        rt.alloc(),
        (Place::BufferViews, 1),
        (FRAME, "]}"),
        ROWS,
    )
}

#[test]
fn refuses_a_packed_view(rt: HostRuntime) -> Result<(), Fail> {
    const ROWS: &[Row] = &[
        ("", Kind::Object, "}}"),
        (
            r#"{"buffer":"#,
            Kind::Reference,
            r#","byteLength":1,"byteStride":4,"count":1,"mode":"a"}}}"#,
        ),
        (
            r#"{"buffer":0,"byteLength":"#,
            Kind::Whole,
            r#","byteStride":4,"count":1,"mode":"a"}}}"#,
        ),
        (
            r#"{"buffer":0,"byteLength":1,"byteStride":"#,
            Kind::Whole,
            r#","count":1,"mode":"a"}}}"#,
        ),
        (
            r#"{"buffer":0,"byteLength":1,"byteStride":4,"count":"#,
            Kind::Whole,
            r#","mode":"a"}}}"#,
        ),
        (
            r#"{"buffer":0,"byteLength":1,"byteStride":4,"count":1,"mode":"#,
            Kind::Text,
            "}}}",
        ),
        (
            r#"{"buffer":0,"byteLength":1,"byteStride":4,"count":1,"mode":"a","byteOffset":"#,
            Kind::Whole,
            "}}}",
        ),
        (
            r#"{"buffer":0,"byteLength":1,"byteStride":4,"count":1,"mode":"a","filter":"#,
            Kind::Text,
            "}}}",
        ),
    ];
    assert_rows(
        &rt,
        rt.alloc(),
        (Place::BufferViews, 1),
        (PACKED, "]}"),
        ROWS,
    )
}

#[test]
fn takes_a_view(rt: HostRuntime) -> Result<(), Fail> {
    const TEXTS: &[&str] = &[
        r#"{"buffer":0,"byteLength":4294967295}"#,
        r#"{"byteStride":4294967295,"byteLength":0,"byteOffset":0,"buffer":0,"target":null}"#,
        r#"{"buffer":0,"byteLength":1,"extensions":{}}"#,
        r#"{"buffer":0,"byteLength":1,"extensions":{"x":null}}"#,
        r#"{"buffer":0,"byteLength":1,"extensions":{"EXT_meshopt_compression":{"buffer":0,"byteLength":1,"byteStride":4,"count":1,"mode":"a"}}}"#,
        r#"{"buffer":0,"byteLength":1,"extensions":{"EXT_meshopt_compression":{"filter":"","byteOffset":7,"buffer":0,"byteLength":1,"byteStride":4,"count":1,"mode":""}}}"#,
    ];
    assert_texts(&rt, rt.alloc(), None, (FRAME, "]}"), TEXTS)
}

// Each member that has to be there, left out in turn.
#[test]
fn refuses_a_view_without_a_member(rt: HostRuntime) -> Result<(), Fail> {
    const TEXTS: &[&str] = &[r#"{"byteLength":1}"#, r#"{"buffer":0}"#];
    assert_texts(
        &rt,
        rt.alloc(),
        Some((Place::BufferViews, 1)),
        (FRAME, "]}"),
        TEXTS,
    )
}

// Each member that has to be there, left out in turn.
#[test]
fn refuses_a_packed_view_without_a_member(rt: HostRuntime) -> Result<(), Fail> {
    const TEXTS: &[&str] = &[
        r#"{}"#,
        r#"{"byteLength":1,"byteStride":4,"count":1,"mode":"a"}"#,
        r#"{"buffer":0,"byteStride":4,"count":1,"mode":"a"}"#,
        r#"{"buffer":0,"byteLength":1,"count":1,"mode":"a"}"#,
        r#"{"buffer":0,"byteLength":1,"byteStride":4,"mode":"a"}"#,
        r#"{"buffer":0,"byteLength":1,"byteStride":4,"count":1}"#,
    ];
    assert_texts(
        &rt,
        rt.alloc(),
        Some((Place::BufferViews, 1)),
        (PACKED, "}}]}"),
        TEXTS,
    )
}
