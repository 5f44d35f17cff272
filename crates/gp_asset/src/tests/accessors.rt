// Conditions of accessors (sections 3.6.2, 5.1). View 0 has 64 bytes, view 1 has 24 in strides of 16, view 2 has 8.
use super::{Row, assert_fault, assert_rows};
use gp_rules::AssetFault;
use std::test::Fail;

const BEFORE: &str =
    r#"{"buffers":[{"byteLength":64}],"bufferViews":[{"buffer":0,"byteLength":64},{"buffer":0,"byteLength":24,"byteStride":16},{"buffer":0,"byteLength":8}],"accessors":[{"#;

const CHUNK: &[u8] = b"0123456789abcdef0123456789abcdef0123456789abcdef0123456789abcdef";

const BAD: Option<AssetFault> = Some(AssetFault::Accessor { at: 0 });

#[test]
fn components_and_types_are_known(rt: HostRuntime) -> Result<(), Fail> {
    const ROWS: &[Row<'static>] = &[
        (r#""componentType":5120,"type":"SCALAR","count":1"#, None),
        (r#""componentType":5121,"type":"VEC2","count":1"#, None),
        (r#""componentType":5122,"type":"VEC3","count":1"#, None),
        (r#""componentType":5123,"type":"VEC4","count":1"#, None),
        (r#""componentType":5125,"type":"MAT2","count":1"#, None),
        (r#""componentType":5126,"type":"MAT3","count":1"#, None),
        (r#""componentType":5126,"type":"M\u0041T4","count":1"#, None),
        (r#""componentType":5119,"type":"SCALAR","count":1"#, BAD),
        (r#""componentType":5124,"type":"SCALAR","count":1"#, BAD),
        (r#""componentType":5127,"type":"SCALAR","count":1"#, BAD),
        (r#""componentType":0,"type":"SCALAR","count":1"#, BAD),
        (r#""componentType":5126,"type":"scalar","count":1"#, BAD),
        (r#""componentType":5126,"type":"VEC5","count":1"#, BAD),
        (r#""componentType":5126,"type":"","count":1"#, BAD),
        (r#""componentType":5126,"type":"SCALAR","count":0"#, BAD),
        (r#""componentType":5124,"type":"VEC5","count":0"#, BAD),
    ];
    assert_rows(&rt, rt.alloc(), (BEFORE, "}]}"), ROWS, Some(CHUNK))
}

#[test]
fn elements_end_in_their_view(rt: HostRuntime) -> Result<(), Fail> {
    const ROWS: &[Row<'static>] = &[
        (r#""bufferView":2,"count":2"#, None),
        (r#""bufferView":2,"count":3"#, BAD),
        (r#""bufferView":2,"count":0"#, BAD),
        (r#""bufferView":2,"count":1,"byteOffset":4"#, None),
        (r#""bufferView":2,"count":1,"byteOffset":5"#, BAD),
        (r#""bufferView":2,"count":2,"byteOffset":4"#, BAD),
        (r#""bufferView":2,"count":1,"byteOffset":8"#, BAD),
        (r#""bufferView":2,"count":2,"byteOffset":4294967292"#, BAD),
        (r#""bufferView":2,"count":1073741825"#, BAD),
        (r#""bufferView":0,"count":16"#, None),
        (r#""bufferView":0,"count":17"#, BAD),
        (r#""bufferView":1,"count":2,"byteOffset":4"#, None),
        (r#""bufferView":1,"count":2,"byteOffset":5"#, BAD),
        (r#""bufferView":1,"count":3"#, BAD),
        (r#""bufferView":1,"count":268435457"#, BAD),
    ];
    let after = r#","componentType":5126,"type":"SCALAR"}]}"#;
    assert_rows(&rt, rt.alloc(), (BEFORE, after), ROWS, Some(CHUNK))
}

// The last element needs no more than its own bytes, and the columns of a matrix begin at multiples of 4.
#[test]
fn elements_have_sizes(rt: HostRuntime) -> Result<(), Fail> {
    const ROWS: &[Row<'static>] = &[
        (
            r#""bufferView":1,"componentType":5126,"type":"VEC2","count":2"#,
            None,
        ),
        (
            r#""bufferView":1,"componentType":5126,"type":"VEC3","count":2"#,
            BAD,
        ),
        (
            r#""bufferView":2,"componentType":5121,"type":"VEC3","count":2"#,
            None,
        ),
        (
            r#""bufferView":2,"componentType":5121,"type":"VEC3","count":3"#,
            BAD,
        ),
        (
            r#""bufferView":2,"componentType":5123,"type":"VEC4","count":1"#,
            None,
        ),
        (
            r#""bufferView":2,"componentType":5123,"type":"VEC4","count":2"#,
            BAD,
        ),
        (
            r#""bufferView":2,"componentType":5121,"type":"MAT2","count":1"#,
            None,
        ),
        (
            r#""bufferView":2,"componentType":5121,"type":"MAT2","count":1,"byteOffset":1"#,
            BAD,
        ),
        (
            r#""bufferView":0,"componentType":5121,"type":"MAT3","count":1,"byteOffset":52"#,
            None,
        ),
        (
            r#""bufferView":0,"componentType":5121,"type":"MAT3","count":1,"byteOffset":53"#,
            BAD,
        ),
        (
            r#""bufferView":0,"componentType":5122,"type":"MAT3","count":1,"byteOffset":40"#,
            None,
        ),
        (
            r#""bufferView":0,"componentType":5122,"type":"MAT3","count":1,"byteOffset":41"#,
            BAD,
        ),
        (
            r#""bufferView":0,"componentType":5123,"type":"MAT3","count":2,"byteOffset":16"#,
            None,
        ),
        (
            r#""bufferView":0,"componentType":5123,"type":"MAT3","count":2,"byteOffset":17"#,
            BAD,
        ),
        (
            r#""bufferView":0,"componentType":5126,"type":"MAT4","count":1"#,
            None,
        ),
        (
            r#""bufferView":0,"componentType":5126,"type":"MAT4","count":1,"byteOffset":1"#,
            BAD,
        ),
    ];
    assert_rows(&rt, rt.alloc(), (BEFORE, "}]}"), ROWS, Some(CHUNK))
}

#[test]
fn the_first_accessor_is_named(rt: HostRuntime) -> Result<(), Fail> {
    const GOOD: &str = r#""componentType":5126,"type":"SCALAR","count":1"#;
    const EMPTY: &str = r#""componentType":5126,"type":"SCALAR","count":0"#;
    const UNKNOWN: &str = r#""componentType":5124,"type":"SCALAR","count":1"#;
    const ROWS: &[([&str; 3], Option<AssetFault>)] = &[
        ([GOOD, GOOD, GOOD], None),
        ([GOOD, EMPTY, UNKNOWN], Some(AssetFault::Accessor { at: 1 })),
        ([GOOD, GOOD, UNKNOWN], Some(AssetFault::Accessor { at: 2 })),
        ([UNKNOWN, GOOD, EMPTY], BAD),
    ];
    for &([first, second, third], want) in ROWS {
        let text = [BEFORE, first, "},{", second, "},{", third, "}]}"];
        assert_fault(&rt, rt.alloc(), &text, Some(CHUNK), want)?;
    }
    Ok(())
}
