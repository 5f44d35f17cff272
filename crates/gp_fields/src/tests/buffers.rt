// The rows of a buffer (section 5.10).
use super::{Kind, Row, assert_rows, assert_texts};
use crate::Place;
use std::test::Fail;

const FRAME: &str = r#"{"buffers":[{"byteLength":1},"#;

#[test]
fn refuses_a_buffer(rt: HostRuntime) -> Result<(), Fail> {
    const ROWS: &[Row] = &[
        ("", Kind::Object, ""),
        (r#"{"byteLength":"#, Kind::Whole, "}"),
        (r#"{"byteLength":1,"uri":"#, Kind::Text, "}"),
        (r#"{"byteLength":1,"extensions":"#, Kind::Object, "}"),
    ];
    assert_rows(&rt, rt.alloc(), (Place::Buffers, 1), (FRAME, "]}"), ROWS)
}

#[test]
fn takes_a_buffer(rt: HostRuntime) -> Result<(), Fail> {
    const TEXTS: &[&str] = &[
        r#"{"byteLength":0}"#,
        r#"{"byteLength":4294967295}"#,
        r#"{"byteLength":1,"uri":"","extensions":{}}"#,
        r#"{"extensions":{"EXT_meshopt_compression":null},"byteLength":1,"name":null}"#,
        r#"{"\u0062yteLength":1}"#,
    ];
    assert_texts(&rt, rt.alloc(), None, (FRAME, "]}"), TEXTS)
}

// Each member that has to be there, left out in turn.
#[test]
fn refuses_a_buffer_without_a_length(rt: HostRuntime) -> Result<(), Fail> {
    const TEXTS: &[&str] = &[r#"{}"#, r#"{"uri":"a","extensions":{}}"#];
    assert_texts(
        &rt,
        rt.alloc(),
        Some((Place::Buffers, 1)),
        (FRAME, "]}"),
        TEXTS,
    )
}
