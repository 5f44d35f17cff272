// The rows of a skin (section 5.28), an animation (sections 5.5 and 5.8) and an image (section 5.18).
use super::{Kind, Row, assert_rows, assert_texts};
use crate::Place;
use std::test::Fail;

const SKINS: &str =
    r#"{"accessors":[{"componentType":1,"count":1,"type":"a"}],"skins":[{"inverseBindMatrices":0},"#;

const ANIMATIONS: &str =
    r#"{"accessors":[{"componentType":1,"count":1,"type":"a"}],"animations":[{"samplers":[{"input":0,"output":0}]},"#;

const IMAGES: &str =
    r#"{"buffers":[{"byteLength":1}],"bufferViews":[{"buffer":0,"byteLength":1}],"images":[{"bufferView":0},"#;

#[test]
fn refuses_a_skin(rt: HostRuntime) -> Result<(), Fail> {
    const ROWS: &[Row] = &[
        ("", Kind::Object, ""),
        (r#"{"inverseBindMatrices":"#, Kind::Reference, "}"),
    ];
    assert_rows(&rt, rt.alloc(), (Place::Skins, 1), (SKINS, "]}"), ROWS)
}

#[test]
fn refuses_an_image(rt: HostRuntime) -> Result<(), Fail> {
    const ROWS: &[Row] = &[
        ("", Kind::Object, ""),
        (r#"{"bufferView":"#, Kind::Reference, "}"),
    ];
    assert_rows(&rt, rt.alloc(), (Place::Images, 1), (IMAGES, "]}"), ROWS)
}

#[test]
fn refuses_an_animation(rt: HostRuntime) -> Result<(), Fail> {
    const ROWS: &[Row] = &[
        ("", Kind::Object, ""),
        (r#"{"samplers":"#, Kind::List, "}"),
        (
            r#"{"samplers":[{"input":0,"output":0},"#,
            Kind::Object,
            "]}",
        ),
        (
            r#"{"samplers":[{"input":"#,
            Kind::Reference,
            r#","output":0}]}"#,
        ),
        (
            r#"{"samplers":[{"input":0,"output":"#,
            Kind::Reference,
            "}]}",
        ),
    ];
    assert_rows(
        &rt,
        rt.alloc(),
        (Place::Animations, 1),
        (ANIMATIONS, "]}"),
        ROWS,
    )
}

// Each member that has to be there, left out in turn.
#[test]
fn refuses_an_animation_without_a_member(rt: HostRuntime) -> Result<(), Fail> {
    const TEXTS: &[&str] = &[
        r#"{}"#,
        r#"{"samplers":[{}]}"#,
        r#"{"samplers":[{"output":0}]}"#,
        r#"{"samplers":[{"input":0}]}"#,
        r#"{"samplers":[{"input":0,"output":0},{"input":0}]}"#,
    ];
    assert_texts(
        &rt,
        rt.alloc(),
        Some((Place::Animations, 1)),
        (ANIMATIONS, "]}"),
        TEXTS,
    )
}
