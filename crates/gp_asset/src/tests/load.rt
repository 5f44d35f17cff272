// How much an asset may ask for: 2^31 = 2147483648 bytes.
use super::{Pair, Row, assert_fault, assert_pairs, assert_rows};
use gp_rules::AssetFault;
use std::test::Fail;

const MUCH: Option<AssetFault> = Some(AssetFault::TooMuchData);

// Elements without a view, each with its bytes up to a multiple of 4.
#[test]
fn elements_are_padded(rt: HostRuntime) -> Result<(), Fail> {
    const ROWS: &[Row<'static>] = &[
        (
            r#"{"componentType":5126,"type":"SCALAR","count":536870912}"#,
            None,
        ),
        (
            r#"{"componentType":5126,"type":"SCALAR","count":536870913}"#,
            MUCH,
        ),
        (
            r#"{"componentType":5121,"type":"SCALAR","count":536870912}"#,
            None,
        ),
        (
            r#"{"componentType":5121,"type":"SCALAR","count":536870913}"#,
            MUCH,
        ),
        (
            r#"{"componentType":5123,"type":"VEC3","count":268435456}"#,
            None,
        ),
        (
            r#"{"componentType":5123,"type":"VEC3","count":268435457}"#,
            MUCH,
        ),
        (
            r#"{"componentType":5126,"type":"MAT4","count":33554432}"#,
            None,
        ),
        (
            r#"{"componentType":5126,"type":"MAT4","count":33554433}"#,
            MUCH,
        ),
        (
            r#"{"componentType":5126,"type":"SCALAR","count":1073741824}"#,
            MUCH,
        ),
        (
            r#"{"componentType":5126,"type":"MAT4","count":4294967295}"#,
            MUCH,
        ),
        (
            r#"{"componentType":5126,"type":"SCALAR","count":268435456},{"componentType":5126,"type":"SCALAR","count":268435456}"#,
            None,
        ),
        (
            r#"{"componentType":5126,"type":"SCALAR","count":268435457},{"componentType":5126,"type":"SCALAR","count":268435456}"#,
            MUCH,
        ),
    ];
    let frame = (r#"{"accessors":["#, "]}");
    assert_rows(&rt, rt.alloc(), frame, ROWS, None)
}

// Views of a chunk of 5 bytes, and so many floats.
#[test]
fn views_are_counted(rt: HostRuntime) -> Result<(), Fail> {
    const ONE: &str = r#"{"buffer":0,"byteLength":1}"#;
    const FOUR: &str = r#"{"buffer":0,"byteLength":4}"#;
    const FIVE: &str = r#"{"buffer":0,"byteLength":5}"#;
    const ROWS: &[(&str, &str, &str, Option<AssetFault>)] = &[
        (ONE, "", "536870911", None),
        (ONE, "", "536870912", MUCH),
        (FOUR, "", "536870911", None),
        (FIVE, "", "536870911", MUCH),
        (FOUR, r#",{"buffer":0,"byteLength":4}"#, "536870910", None),
        (FOUR, r#",{"buffer":0,"byteLength":5}"#, "536870910", MUCH),
    ];
    for &(view, other, count, want) in ROWS {
        let before = r#"{"buffers":[{"byteLength":5}],"bufferViews":["#;
        let between = r#"],"accessors":[{"componentType":5126,"type":"SCALAR","count":"#;
        let text = [before, view, other, between, count, "}]}"];
        assert_fault(&rt, rt.alloc(), &text, Some(b"abcde"), want)?;
    }
    Ok(())
}

// A compressed view counts as what its stream stands for.
#[test]
fn compressed_views_are_counted(rt: HostRuntime) -> Result<(), Fail> {
    const ROWS: &[Pair<'static>] = &[
        ("2147483648", "536870912", None),
        ("2147483652", "536870913", MUCH),
    ];
    let before = r#"{"buffers":[{"byteLength":5}],"bufferViews":[{"buffer":0,"byteLength":"#;
    let between =
        r#","extensions":{"EXT_meshopt_compression":{"buffer":0,"byteLength":5,"byteStride":4,"mode":"ATTRIBUTES","count":"#;
    let frame = (before, between, "}}}]}");
    assert_pairs(&rt, rt.alloc(), frame, ROWS, Some(b"abcde"))
}
