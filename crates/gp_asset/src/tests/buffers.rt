// Conditions of buffers (sections 3.6.1 and 5.10).
use super::{Pair, Row, assert_fault, assert_pairs, assert_rows};
use crate::{Form, ViewBytes, read_asset};
use gp_json::read;
use gp_rules::AssetFault;
use std::test::Fail;

const BEFORE: &str = r#"{"buffers":["#;

// A view that needs the first buffer.
const AFTER: &str = r#"],"bufferViews":[{"buffer":0,"byteLength":4}]}"#;

// The same behind a `uri`.
const AFTER_URI: &str = r#""}],"bufferViews":[{"buffer":0,"byteLength":4}]}"#;

const SHORT: Option<AssetFault> = Some(AssetFault::Buffer { at: 0 });

const SCHEME: Option<AssetFault> = Some(AssetFault::Scheme { at: 0 });

const BASE64: Option<AssetFault> = Some(AssetFault::Base64 { at: 0 });

#[test]
fn buffer_0_is_the_chunk(rt: HostRuntime) -> Result<(), Fail> {
    const ROWS: &[(&str, Option<&[u8]>, Option<AssetFault>)] = &[
        (r#"{"byteLength":4}"#, None, SHORT),
        (r#"{"byteLength":4}"#, Some(b""), SHORT),
        (r#"{"byteLength":4}"#, Some(b"abc"), SHORT),
        (r#"{"byteLength":4}"#, Some(b"abcd"), None),
        (r#"{"byteLength":4}"#, Some(b"abcdefg"), None),
        (r#"{"byteLength":4294967295}"#, Some(b"abcdefg"), SHORT),
        (r#"{"byteLength":0}"#, None, SHORT),
        (
            r#"{"byteLength":0}"#,
            Some(b""),
            Some(AssetFault::View { at: 0 }),
        ),
    ];
    for &(buffer, bin, want) in ROWS {
        assert_fault(&rt, rt.alloc(), &[BEFORE, buffer, AFTER], bin, want)?;
    }
    Ok(())
}

#[test]
fn a_buffer_may_be_marked(rt: HostRuntime) -> Result<(), Fail> {
    const ROWS: &[Row<'static>] = &[
        ("{}", None),
        (r#"{"EXT_meshopt_compression":{}}"#, None),
        (r#"{"EXT_meshopt_compressio\u006e":null}"#, None),
        (r#"{"x":{}}"#, SHORT),
        (r#"{"EXT_meshopt_compression":{},"x":1}"#, SHORT),
        (r#"{"x":1,"EXT_meshopt_compression":{}}"#, SHORT),
        (r#"{"EXT_meshopt_compressio":{}}"#, SHORT),
    ];
    let before = r#"{"buffers":[{"byteLength":4,"extensions":"#;
    let after = r#"}],"bufferViews":[{"buffer":0,"byteLength":4}]}"#;
    assert_rows(&rt, rt.alloc(), (before, after), ROWS, Some(b"abcd"))?;
    for &(names, _) in ROWS {
        assert_fault(&rt, rt.alloc(), &[before, names, after], None, SHORT)?;
    }
    Ok(())
}

// The code of four bytes is `AQIDBA==`.
#[test]
fn a_uri_is_read(rt: HostRuntime) -> Result<(), Fail> {
    const ROWS: &[Row<'static>] = &[
        ("data:application/octet-stream;base64,AQIDBA==", None),
        ("data:application/gltf-buffer;base64,AQIDBA==", None),
        (r#"\u0064ata:application/gltf-buffer;base64,AQIDBA=="#, None),
        (
            r#"data:application\/gltf-buffer;base64,\/\/\/\/\/w=="#,
            None,
        ),
        ("data:application/octet-stream;base64,AQIDBAU=", None),
        ("data:application/octet-stream;base64,AQID", SHORT),
        ("data:application/octet-stream;base64,", SHORT),
    ];
    let frame = (r#"{"buffers":[{"byteLength":4,"uri":""#, AFTER_URI);
    assert_rows(&rt, rt.alloc(), frame, ROWS, None)?;
    assert_rows(&rt, rt.alloc(), frame, ROWS, Some(b"abcdefg"))
}

// Each is so whatever the length that the buffer says, and whatever the chunk.
#[test]
fn a_uri_of_another_kind_is_refused(rt: HostRuntime) -> Result<(), Fail> {
    const ROWS: &[Row<'static>] = &[
        ("", SCHEME),
        ("a.bin", SCHEME),
        ("data:image/png;base64,AQIDBA==", SCHEME),
        ("data:application/octet-stream;base64", SCHEME),
        ("data:application/octet-stream,AQIDBA==", SCHEME),
        (" data:application/octet-stream;base64,AQIDBA==", SCHEME),
        ("data:application/octet-stream;base64,AQIDBA==é", SCHEME),
        (r#"data:application/octet-stream;base64,\u0080"#, SCHEME),
        (r#"data:application/octet-stream;base64,\u007f"#, BASE64),
        ("data:application/octet-stream;base64,AQIDBA", BASE64),
        ("data:application/octet-stream;base64,AQIDBA=", BASE64),
        ("data:application/octet-stream;base64,AQIDBB==", BASE64),
        ("data:application/octet-stream;base64,AQIDBA==AQID", BASE64),
        ("data:application/gltf-buffer;base64,AQ ID", BASE64),
        ("data:application/gltf-buffer;base64,____", BASE64),
        ("data:application/gltf-buffer;base64,A", BASE64),
    ];
    let frame = (r#"{"buffers":[{"byteLength":99,"uri":""#, AFTER_URI);
    assert_rows(&rt, rt.alloc(), frame, ROWS, None)?;
    assert_rows(&rt, rt.alloc(), frame, ROWS, Some(b"abcdefg"))
}

#[test]
fn the_uri_is_read_beside_a_chunk(rt: HostRuntime) -> Result<(), Fail> {
    let root = read(
        rt.alloc(),
        br#"{"buffers":[{"byteLength":4,"uri":"data:application/octet-stream;base64,AQIDBA=="}],"bufferViews":[{"buffer":0,"byteLength":4}]}"#,
    )?;
    let asset = read_asset(rt.alloc(), &root, Some(b"abcd"), Form::Any)?;
    assert!(rt; asset.has(0));
    assert_eq!(rt; asset.view(0), [1u8, 2, 3, 4].as_slice());
    Ok(())
}

// What is wrong with a buffer that no view needs, and which buffer is named first.
#[test]
fn buffers_are_asked_in_order(rt: HostRuntime) -> Result<(), Fail> {
    const BOTH: &str =
        r#"],"bufferViews":[{"buffer":1,"byteLength":4},{"buffer":0,"byteLength":4}]}"#;
    const SECOND: &str = r#"],"bufferViews":[{"buffer":1,"byteLength":4}]}"#;
    const ROWS: &[Pair<'static>] = &[
        (r#"{"byteLength":9}"#, "]}", None),
        (r#"{"byteLength":9,"uri":"a.bin"}"#, "]}", None),
        (r#"{"byteLength":9,"extensions":{"x":1}}"#, "]}", SHORT),
        (
            r#"{"byteLength":4,"uri":"a.bin","extensions":{"x":1}}"#,
            AFTER,
            SHORT,
        ),
        (
            r#"{"byteLength":4},{"byteLength":4}"#,
            SECOND,
            Some(AssetFault::Buffer { at: 1 }),
        ),
        (
            r#"{"byteLength":9},{"byteLength":4,"uri":"data:application/octet-stream;base64,AQIDBA=="}"#,
            SECOND,
            None,
        ),
        (
            r#"{"byteLength":4},{"byteLength":4,"uri":"a.bin"}"#,
            BOTH,
            Some(AssetFault::Scheme { at: 1 }),
        ),
        (
            r#"{"byteLength":4,"uri":"data:application/gltf-buffer;base64,A"},{"byteLength":4}"#,
            BOTH,
            BASE64,
        ),
        (
            r#"{"byteLength":4,"uri":"a.bin"},{"byteLength":4,"extensions":{"x":1}}"#,
            BOTH,
            SCHEME,
        ),
        (
            r#"{"byteLength":5},{"byteLength":4,"uri":"a.bin"}"#,
            BOTH,
            SHORT,
        ),
    ];
    let frame = (BEFORE, "", "");
    assert_pairs(&rt, rt.alloc(), frame, ROWS, Some(b"abcd"))
}

// Buffer 1 is the view's own, and the stream stands in buffer 0.
#[test]
fn a_fallback_buffer_needs_no_bytes(rt: HostRuntime) -> Result<(), Fail> {
    const PACKED: &str =
        r#"],"bufferViews":[{"buffer":1,"byteLength":8,"extensions":{"EXT_meshopt_compression":{"buffer":0,"byteLength":4,"byteStride":4,"count":2,"mode":"ATTRIBUTES"}}}"#;
    const ITSELF: &str =
        r#"],"bufferViews":[{"buffer":1,"byteLength":8,"extensions":{"EXT_meshopt_compression":{"buffer":1,"byteLength":4,"byteStride":4,"count":2,"mode":"ATTRIBUTES"}}}"#;
    const MISSING: Option<AssetFault> = Some(AssetFault::Buffer { at: 1 });
    const ROWS: &[(&str, &str, &str, Option<AssetFault>)] = &[
        (r#"{"byteLength":8}"#, PACKED, "]}", None),
        (r#"{"byteLength":8,"uri":"a.bin"}"#, PACKED, "]}", None),
        (
            r#"{"byteLength":8,"extensions":{"EXT_meshopt_compression":{"fallback":true}}}"#,
            PACKED,
            "]}",
            None,
        ),
        (
            r#"{"byteLength":8,"extensions":{"EXT_meshopt_compression":{"fallback":true},"x":1}}"#,
            PACKED,
            "]}",
            MISSING,
        ),
        (
            r#"{"byteLength":8,"extensions":{"EXT_meshopt_compression":{"fallback":true}}}"#,
            ITSELF,
            "]}",
            MISSING,
        ),
        (
            r#"{"byteLength":8,"extensions":{"EXT_meshopt_compression":{"fallback":true}}}"#,
            PACKED,
            r#",{"buffer":1,"byteLength":8}]}"#,
            MISSING,
        ),
    ];
    for &(buffer, views, end, want) in ROWS {
        let text = [BEFORE, r#"{"byteLength":4},"#, buffer, views, end];
        assert_fault(&rt, rt.alloc(), &text, Some(b"abcd"), want)?;
    }
    Ok(())
}
