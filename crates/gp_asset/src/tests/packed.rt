// Conditions of compressed forms (EXT_meshopt_compression): 6 elements of 4 bytes, in a stream of 4 bytes.
use super::{Pair, Row, assert_fault, assert_pairs};
use gp_rules::AssetFault;
use std::alloc::Global;
use std::process::Abort;
use std::test::Fail;

const BEFORE: &str = r#"{"buffers":[{"byteLength":16}],"bufferViews":[{"buffer":0,"#;

const BETWEEN: &str = r#","extensions":{"EXT_meshopt_compression":{"buffer":0,"#;

const AFTER: &str = "}}}]}";

const CHUNK: &[u8] = b"0123456789abcdef";

const VIEW: Option<AssetFault> = Some(AssetFault::View { at: 0 });

const EXTENSION: Option<AssetFault> = Some(AssetFault::Extension { at: 0 });

const FILTER: Option<AssetFault> = Some(AssetFault::Filter { at: 0 });

#[test]
fn modes_and_filters_are_known(rt: HostRuntime) -> Result<(), Fail> {
    const ROWS: &[Row<'static>] = &[
        (r#""ATTRIBUTES""#, None),
        (r#""ATTRIBUTE\u0053""#, None),
        (r#""TRIANGLES""#, None),
        (r#""INDICES""#, None),
        (r#""attributes""#, EXTENSION),
        (r#""""#, EXTENSION),
        (r#""POINTS""#, EXTENSION),
        (r#""ATTRIBUTES","filter":"NONE""#, None),
        (r#""ATTRIBUTES","filter":"NON\u0045""#, None),
        (r#""ATTRIBUTES","filter":"OCTAHEDRAL""#, FILTER),
        (r#""ATTRIBUTES","filter":"QUATERNION""#, FILTER),
        (r#""ATTRIBUTES","filter":"EXPONENTIAL""#, FILTER),
        (r#""INDICES","filter":"OCTAHEDRAL""#, FILTER),
        (r#""ATTRIBUTES","filter":"none""#, EXTENSION),
        (r#""ATTRIBUTES","filter":"COLOR""#, EXTENSION),
        (r#""ATTRIBUTES","filter":"""#, EXTENSION),
    ];
    for &(mode, want) in ROWS {
        let packed = r#""byteLength":4,"byteStride":4,"count":6,"mode":"#;
        let text = [BEFORE, r#""byteLength":24"#, BETWEEN, packed, mode, AFTER];
        assert_fault(&rt, rt.alloc(), &text, Some(CHUNK), want)?;
    }
    Ok(())
}

// The fault of a view of so many bytes, with these sizes of elements, in this mode.
fn assert_sizes(
    rt: &impl Abort,
    alloc: Global,
    mode: &str,
    length: &str,
    sizes: &str,
    want: Option<AssetFault>,
) -> Result<(), Fail> {
    let text = [
        BEFORE,
        r#""byteLength":"#,
        length,
        BETWEEN,
        sizes,
        mode,
        AFTER,
    ];
    assert_fault(rt, alloc, &text, Some(CHUNK), want)
}

// By the bytes that all elements have, the size of one, and their number.
#[test]
fn attributes_have_strides(rt: HostRuntime) -> Result<(), Fail> {
    const ROWS: &[Pair<'static>] = &[
        ("24", r#""byteStride":4,"count":6"#, None),
        ("24", r#""byteStride":8,"count":3"#, None),
        ("24", r#""byteStride":0,"count":6"#, EXTENSION),
        ("24", r#""byteStride":2,"count":12"#, EXTENSION),
        ("24", r#""byteStride":6,"count":4"#, EXTENSION),
        ("24", r#""byteStride":4,"count":0"#, EXTENSION),
        ("24", r#""byteStride":4,"count":5"#, EXTENSION),
        ("24", r#""byteStride":4,"count":7"#, EXTENSION),
        ("24", r#""byteStride":4,"count":1073741830"#, EXTENSION),
        ("256", r#""byteStride":256,"count":1"#, None),
        ("260", r#""byteStride":260,"count":1"#, EXTENSION),
        ("0", r#""byteStride":4,"count":0"#, VIEW),
    ];
    let mode = r#","byteLength":4,"mode":"ATTRIBUTES""#;
    for &(length, sizes, want) in ROWS {
        assert_sizes(&rt, rt.alloc(), mode, length, sizes, want)?;
    }
    Ok(())
}

#[test]
fn indices_have_2_or_4_bytes(rt: HostRuntime) -> Result<(), Fail> {
    const ROWS: &[(&str, &str, Option<AssetFault>, Option<AssetFault>)] = &[
        ("24", r#""byteStride":4,"count":6"#, None, None),
        ("24", r#""byteStride":2,"count":12"#, None, None),
        ("24", r#""byteStride":8,"count":3"#, EXTENSION, EXTENSION),
        ("24", r#""byteStride":1,"count":24"#, EXTENSION, EXTENSION),
        ("9", r#""byteStride":3,"count":3"#, EXTENSION, EXTENSION),
        ("24", r#""byteStride":0,"count":6"#, EXTENSION, EXTENSION),
        ("24", r#""byteStride":4,"count":9"#, EXTENSION, EXTENSION),
        ("16", r#""byteStride":4,"count":4"#, EXTENSION, None),
        ("10", r#""byteStride":2,"count":5"#, EXTENSION, None),
        (
            "8",
            r#""byteStride":4,"count":1073741826"#,
            EXTENSION,
            EXTENSION,
        ),
    ];
    let of_triangles = r#","byteLength":4,"mode":"TRIANGLES""#;
    let of_indices = r#","byteLength":4,"mode":"INDICES""#;
    for &(length, sizes, triangles, indices) in ROWS {
        assert_sizes(&rt, rt.alloc(), of_triangles, length, sizes, triangles)?;
        assert_sizes(&rt, rt.alloc(), of_indices, length, sizes, indices)?;
    }
    Ok(())
}

// The view's own slice isn't read, and may end anywhere.
#[test]
fn the_view_itself_agrees(rt: HostRuntime) -> Result<(), Fail> {
    const ATTRIBUTES: &str = r#""byteLength":4,"byteStride":4,"count":6,"mode":"ATTRIBUTES""#;
    const ROWS: &[Pair<'static>] = &[
        (
            r#""byteLength":24,"byteOffset":4294967292"#,
            ATTRIBUTES,
            None,
        ),
        (r#""byteLength":24,"byteStride":4"#, ATTRIBUTES, None),
        (r#""byteLength":24,"byteStride":8"#, ATTRIBUTES, EXTENSION),
        (r#""byteLength":24,"byteStride":6"#, ATTRIBUTES, VIEW),
        (r#""byteLength":20"#, ATTRIBUTES, EXTENSION),
        (
            r#""byteLength":256,"byteStride":256"#,
            r#""byteLength":4,"byteStride":256,"count":1,"mode":"ATTRIBUTES""#,
            VIEW,
        ),
        (
            r#""byteLength":252,"byteStride":252"#,
            r#""byteLength":4,"byteStride":252,"count":1,"mode":"ATTRIBUTES""#,
            None,
        ),
        (
            r#""byteLength":24,"byteStride":4"#,
            r#""byteLength":4,"byteStride":2,"count":12,"mode":"TRIANGLES""#,
            EXTENSION,
        ),
    ];
    let frame = (BEFORE, BETWEEN, AFTER);
    assert_pairs(&rt, rt.alloc(), frame, ROWS, Some(CHUNK))
}

#[test]
fn a_stream_ends_in_its_buffer(rt: HostRuntime) -> Result<(), Fail> {
    const ROWS: &[Row<'static>] = &[
        (r#""byteLength":16"#, None),
        (r#""byteLength":17"#, EXTENSION),
        (r#""byteLength":4,"byteOffset":12"#, None),
        (r#""byteLength":4,"byteOffset":13"#, EXTENSION),
        (r#""byteLength":8,"byteOffset":4294967292"#, EXTENSION),
        (r#""byteLength":4294967295,"byteOffset":2"#, EXTENSION),
    ];
    for &(slice, want) in ROWS {
        let sizes = r#","byteStride":4,"count":6,"mode":"ATTRIBUTES""#;
        let text = [BEFORE, r#""byteLength":24"#, BETWEEN, slice, sizes, AFTER];
        assert_fault(&rt, rt.alloc(), &text, Some(CHUNK), want)?;
    }
    Ok(())
}

// The view first, then its compressed form, and last its filter.
#[test]
fn a_filter_is_looked_at_last(rt: HostRuntime) -> Result<(), Fail> {
    const ROWS: &[Pair<'static>] = &[
        (
            r#""byteLength":0"#,
            r#""byteLength":4,"byteStride":4,"count":0,"mode":"a","filter":"OCTAHEDRAL""#,
            VIEW,
        ),
        (
            r#""byteLength":24,"byteStride":2"#,
            r#""byteLength":4,"byteStride":4,"count":6,"mode":"ATTRIBUTES","filter":"OCTAHEDRAL""#,
            VIEW,
        ),
        (
            r#""byteLength":24"#,
            r#""byteLength":4,"byteStride":4,"count":6,"mode":"a","filter":"OCTAHEDRAL""#,
            EXTENSION,
        ),
        (
            r#""byteLength":24"#,
            r#""byteLength":17,"byteStride":4,"count":6,"mode":"ATTRIBUTES","filter":"QUATERNION""#,
            EXTENSION,
        ),
        (
            r#""byteLength":24"#,
            r#""byteLength":4,"byteStride":4,"count":5,"mode":"ATTRIBUTES","filter":"EXPONENTIAL""#,
            EXTENSION,
        ),
        (
            r#""byteLength":24,"byteStride":8"#,
            r#""byteLength":4,"byteStride":4,"count":6,"mode":"ATTRIBUTES","filter":"OCTAHEDRAL""#,
            EXTENSION,
        ),
    ];
    let frame = (BEFORE, BETWEEN, AFTER);
    assert_pairs(&rt, rt.alloc(), frame, ROWS, Some(CHUNK))
}
