// Conditions of buffer views (section 5.11).
use super::{Row, assert_fault, assert_rows};
use gp_rules::AssetFault;
use std::test::Fail;

const BEFORE: &str = r#"{"buffers":[{"byteLength":16}],"bufferViews":["#;

// A view of buffer 0 with other members.
const ONE: (&str, &str) = (
    r#"{"buffers":[{"byteLength":16}],"bufferViews":[{"buffer":0,"#,
    "}]}",
);

const CHUNK: &[u8] = b"0123456789abcdef";

const BAD: Option<AssetFault> = Some(AssetFault::View { at: 0 });

#[test]
fn a_view_has_a_length_and_a_stride(rt: HostRuntime) -> Result<(), Fail> {
    const ROWS: &[Row<'static>] = &[
        (r#""byteLength":1"#, None),
        (r#""byteLength":0"#, BAD),
        (r#""byteLength":0,"byteStride":0"#, BAD),
        (r#""byteLength":1,"byteStride":0"#, BAD),
        (r#""byteLength":1,"byteStride":2"#, BAD),
        (r#""byteLength":1,"byteStride":4"#, None),
        (r#""byteLength":1,"byteStride":6"#, BAD),
        (r#""byteLength":1,"byteStride":252"#, None),
        (r#""byteLength":1,"byteStride":253"#, BAD),
        (r#""byteLength":1,"byteStride":256"#, BAD),
        (r#""byteLength":1,"byteStride":4294967292"#, BAD),
    ];
    assert_rows(&rt, rt.alloc(), ONE, ROWS, Some(CHUNK))
}

#[test]
fn a_view_ends_in_its_buffer(rt: HostRuntime) -> Result<(), Fail> {
    const ROWS: &[Row<'static>] = &[
        (r#""byteLength":16"#, None),
        (r#""byteLength":17"#, BAD),
        (r#""byteLength":15,"byteOffset":1"#, None),
        (r#""byteLength":16,"byteOffset":1"#, BAD),
        (r#""byteLength":1,"byteOffset":15"#, None),
        (r#""byteLength":1,"byteOffset":16"#, BAD),
        (r#""byteLength":8,"byteOffset":4294967292"#, BAD),
        (r#""byteLength":1,"byteOffset":4294967295"#, BAD),
        (r#""byteLength":4294967295,"byteOffset":2"#, BAD),
        (r#""byteLength":17,"byteStride":6"#, BAD),
    ];
    assert_rows(&rt, rt.alloc(), ONE, ROWS, Some(CHUNK))
}

// The chunk is longer than what the buffer says, and the lowest view is named, whatever its fault.
#[test]
fn the_first_view_is_named(rt: HostRuntime) -> Result<(), Fail> {
    const GOOD: &str = r#"{"buffer":0,"byteLength":16}"#;
    const PAST: &str = r#",{"buffer":0,"byteLength":17}"#;
    const EXTENSION: &str =
        r#"{"buffer":0,"byteLength":8,"extensions":{"EXT_meshopt_compression":{"buffer":0,"byteLength":4,"byteStride":4,"count":3,"mode":"ATTRIBUTES"}}}"#;
    const FILTER: &str =
        r#"{"buffer":0,"byteLength":8,"extensions":{"EXT_meshopt_compression":{"buffer":0,"byteLength":4,"byteStride":4,"count":2,"mode":"ATTRIBUTES","filter":"OCTAHEDRAL"}}}"#;
    const ROWS: &[([&str; 3], Option<AssetFault>)] = &[
        ([GOOD, PAST, PAST], Some(AssetFault::View { at: 1 })),
        ([GOOD, "", PAST], Some(AssetFault::View { at: 1 })),
        ([EXTENSION, PAST, ""], Some(AssetFault::Extension { at: 0 })),
        ([FILTER, PAST, ""], Some(AssetFault::Filter { at: 0 })),
        ([FILTER, ",", EXTENSION], Some(AssetFault::Filter { at: 0 })),
        (
            [EXTENSION, ",", FILTER],
            Some(AssetFault::Extension { at: 0 }),
        ),
        ([GOOD, ",", FILTER], Some(AssetFault::Filter { at: 1 })),
    ];
    for &([first, second, third], want) in ROWS {
        let text = [BEFORE, first, second, third, "]}"];
        assert_fault(&rt, rt.alloc(), &text, Some(b"0123456789abcdef0"), want)?;
    }
    Ok(())
}
