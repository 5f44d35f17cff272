// Conditions of sparse accessors (sections 5.2 to 5.4): of four pairs of floats some are given apart. View 0 has 64 bytes,
// view 1 has 24 in strides of 16, view 2 has 8.
use super::{Pair, assert_pairs};
use gp_rules::AssetFault;
use std::test::Fail;

const BEFORE: &str =
    r#"{"buffers":[{"byteLength":64}],"bufferViews":[{"buffer":0,"byteLength":64},{"buffer":0,"byteLength":24,"byteStride":16},{"buffer":0,"byteLength":8}],"accessors":[{"componentType":5126,"count":4,"type":"VEC2","sparse":{"count":"#;

const CHUNK: &[u8] = b"0123456789abcdef0123456789abcdef0123456789abcdef0123456789abcdef";

const BAD: Option<AssetFault> = Some(AssetFault::Accessor { at: 0 });

// By their number, and the component of their places.
#[test]
fn places_are_numbers(rt: HostRuntime) -> Result<(), Fail> {
    const ROWS: &[Pair<'static>] = &[
        ("1", "5121", None),
        ("1", "5123", None),
        ("1", "5125", None),
        ("1", "5120", BAD),
        ("1", "5122", BAD),
        ("1", "5124", BAD),
        ("1", "5126", BAD),
        ("0", "5121", BAD),
        ("4", "5121", None),
        ("5", "5121", BAD),
        ("4294967295", "5121", BAD),
        ("0", "5126", BAD),
    ];
    let between = r#","indices":{"bufferView":0,"componentType":"#;
    let after = r#"},"values":{"bufferView":0}}}]}"#;
    let frame = (BEFORE, between, after);
    assert_pairs(&rt, rt.alloc(), frame, ROWS, Some(CHUNK))
}

#[test]
fn places_end_in_their_view(rt: HostRuntime) -> Result<(), Fail> {
    const ROWS: &[Pair<'static>] = &[
        ("2", r#""bufferView":2,"componentType":5125"#, None),
        ("3", r#""bufferView":2,"componentType":5125"#, BAD),
        ("4", r#""bufferView":2,"componentType":5123"#, None),
        (
            "1",
            r#""bufferView":2,"componentType":5125,"byteOffset":4"#,
            None,
        ),
        (
            "1",
            r#""bufferView":2,"componentType":5125,"byteOffset":5"#,
            BAD,
        ),
        (
            "1",
            r#""bufferView":2,"componentType":5121,"byteOffset":7"#,
            None,
        ),
        (
            "1",
            r#""bufferView":2,"componentType":5121,"byteOffset":8"#,
            BAD,
        ),
        (
            "2",
            r#""bufferView":2,"componentType":5125,"byteOffset":4294967292"#,
            BAD,
        ),
        (
            "3",
            r#""bufferView":1,"componentType":5125,"byteOffset":12"#,
            None,
        ),
        (
            "3",
            r#""bufferView":1,"componentType":5125,"byteOffset":13"#,
            BAD,
        ),
    ];
    let after = r#"},"values":{"bufferView":0}}}]}"#;
    let frame = (BEFORE, r#","indices":{"#, after);
    assert_pairs(&rt, rt.alloc(), frame, ROWS, Some(CHUNK))
}

// They stand without gaps, whatever the stride of the view.
#[test]
fn values_end_in_their_view(rt: HostRuntime) -> Result<(), Fail> {
    const ROWS: &[Pair<'static>] = &[
        ("1", r#""bufferView":2"#, None),
        ("2", r#""bufferView":2"#, BAD),
        ("1", r#""bufferView":2,"byteOffset":1"#, BAD),
        ("1", r#""bufferView":2,"byteOffset":4294967292"#, BAD),
        ("4", r#""bufferView":0,"byteOffset":32"#, None),
        ("4", r#""bufferView":0,"byteOffset":33"#, BAD),
        ("3", r#""bufferView":1"#, None),
        ("4", r#""bufferView":1"#, BAD),
    ];
    let between = r#","indices":{"bufferView":0,"componentType":5121},"values":{"#;
    let frame = (BEFORE, between, "}}}]}");
    assert_pairs(&rt, rt.alloc(), frame, ROWS, Some(CHUNK))
}
