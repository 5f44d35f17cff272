// The order of faults of different kinds.
use super::assert_fault;
use crate::Place;
use gp_rules::AssetFault;
use std::test::Fail;

// Each row has all faults of the rows below it too: the texts of the members stand in another order than the faults.
#[test]
fn kinds_of_faults_have_an_order(rt: HostRuntime) -> Result<(), Fail> {
    const IMAGES: &str = r#"{"images":{},"#;
    const FOREIGN: &str = r#""extras":{"extensions":{"KHR_meshopt_compression":0}},"#;
    const ACCESSORS: &str =
        r#""accessors":[{"componentType":5126,"type":"SCALAR","count":4294967295},{"componentType":5126,"type":"SCALAR","count":0}],"#;
    const MUCH: &str =
        r#""accessors":[{"componentType":5126,"type":"SCALAR","count":4294967295}],"#;
    const VIEWS: &str =
        r#""bufferViews":[{"buffer":0,"byteLength":4},{"buffer":0,"byteLength":5},{"buffer":1,"byteLength":4}],"#;
    const SOUND: &str = r#""bufferViews":[{"buffer":0,"byteLength":4}],"#;
    const BUFFERS: &str = r#""buffers":[{"byteLength":4},{"byteLength":4}]}"#;
    const FIELD: AssetFault = AssetFault::Field {
        member: Place::Images,
        at: 0,
    };
    const ROWS: &[([&str; 5], Option<AssetFault>)] = &[
        ([IMAGES, FOREIGN, ACCESSORS, VIEWS, BUFFERS], Some(FIELD)),
        (
            ["{", FOREIGN, ACCESSORS, VIEWS, BUFFERS],
            Some(AssetFault::Foreign),
        ),
        (
            ["{", "", ACCESSORS, VIEWS, BUFFERS],
            Some(AssetFault::Buffer { at: 1 }),
        ),
        (
            [
                "{",
                "",
                ACCESSORS,
                VIEWS,
                r#""buffers":[{"byteLength":4},{"byteLength":4,"uri":"data:application/octet-stream;base64,AQIDBA=="}]}"#,
            ],
            Some(AssetFault::View { at: 1 }),
        ),
        (
            ["{", "", ACCESSORS, SOUND, BUFFERS],
            Some(AssetFault::Accessor { at: 1 }),
        ),
        (
            ["{", "", MUCH, SOUND, BUFFERS],
            Some(AssetFault::TooMuchData),
        ),
        (["{", "", "", SOUND, BUFFERS], None),
    ];
    for &(text, want) in ROWS {
        assert_fault(&rt, rt.alloc(), &text, Some(b"abcd"), want)?;
    }
    Ok(())
}

// An item of another shape is a fault of fields, with its place.
#[test]
fn fields_have_their_faults(rt: HostRuntime) -> Result<(), Fail> {
    const ROWS: &[(&str, Place, usize)] = &[
        ("[]", Place::Root, 0),
        (
            r#"{"extensionsUsed":["KHR_meshopt_compression",0]}"#,
            Place::ExtensionsUsed,
            1,
        ),
        (r#"{"buffers":[{}]}"#, Place::Buffers, 0),
        (
            r#"{"buffers":[{"byteLength":1}],"bufferViews":[{"buffer":1,"byteLength":1}]}"#,
            Place::BufferViews,
            0,
        ),
        (
            r#"{"accessors":[{"componentType":5126,"type":"SCALAR","count":0},{}]}"#,
            Place::Accessors,
            1,
        ),
        (r#"{"meshes":[{}]}"#, Place::Meshes, 0),
    ];
    for &(text, member, at) in ROWS {
        let want = Some(AssetFault::Field { member, at });
        assert_fault(&rt, rt.alloc(), &[text], None, want)?;
    }
    Ok(())
}
