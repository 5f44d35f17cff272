// Which extensions are in use (section 3.12), and what follows of it.
use super::assert_form;
use crate::{Form, read_asset};
use gp_json::read;
use gp_rules::AssetFault;
use std::alloc::Global;
use std::process::Abort;
use std::test::Fail;

const FOREIGN: Option<AssetFault> = Some(AssetFault::Foreign);

const PACKED: Option<AssetFault> = Some(AssetFault::AlreadyPacked);

// The faults of each text, read for packing and for all else.
fn assert_forms(
    rt: &impl Abort,
    alloc: Global,
    rows: &[(&str, Option<AssetFault>, Option<AssetFault>)],
) -> Result<(), Fail> {
    for (text, plain, any) in rows {
        assert_form(rt, alloc, text, None, Form::Plain, *plain)?;
        assert_form(rt, alloc, text, None, Form::Any, *any)?;
    }
    Ok(())
}

#[test]
fn extensions_are_found(rt: HostRuntime) -> Result<(), Fail> {
    const ROWS: &[(&str, Option<AssetFault>, Option<AssetFault>)] = &[
        ("{}", None, None),
        (
            r#"{"extensionsUsed":["KHR_meshopt_compression"]}"#,
            FOREIGN,
            FOREIGN,
        ),
        (
            r#"{"extensionsRequired":["x","KHR_meshopt_compression"]}"#,
            FOREIGN,
            FOREIGN,
        ),
        (
            r#"{"extensions":{"KHR_meshopt_compression":null}}"#,
            FOREIGN,
            FOREIGN,
        ),
        (
            r#"{"extensions":{"x":{"extensions":{"KHR_meshopt_compression":0}}}}"#,
            FOREIGN,
            FOREIGN,
        ),
        (
            r#"{"extras":[[{"extensions":{"x":0,"\u006bHR_meshopt_compression":0}}]]}"#,
            None,
            None,
        ),
        (
            r#"{"extras":[[{"extensions":{"x":0,"\u004BHR_meshopt_compression":0}}]]}"#,
            FOREIGN,
            FOREIGN,
        ),
        (
            r#"{"asset":{"\u0065xtensions":{"KHR_meshopt_compression":0}}}"#,
            FOREIGN,
            FOREIGN,
        ),
        (r#"{"extras":{"KHR_meshopt_compression":{}}}"#, None, None),
        (
            r#"{"extras":{"extensions":["KHR_meshopt_compression"]}}"#,
            None,
            None,
        ),
        (
            r#"{"extras":{"extensionsUsed":["KHR_meshopt_compression"]}}"#,
            None,
            None,
        ),
        (
            r#"{"extensions":{"x":{"KHR_meshopt_compression":0}}}"#,
            None,
            None,
        ),
    ];
    assert_forms(&rt, rt.alloc(), ROWS)
}

#[test]
fn what_is_packed_is_not_packed_again(rt: HostRuntime) -> Result<(), Fail> {
    const ROWS: &[(&str, Option<AssetFault>, Option<AssetFault>)] = &[
        (
            r#"{"extensionsUsed":["EXT_meshopt_compression"]}"#,
            PACKED,
            None,
        ),
        (
            r#"{"extensionsRequired":["EXT_meshopt_compression"]}"#,
            PACKED,
            None,
        ),
        (
            r#"{"buffers":[{"byteLength":1,"extensions":{"EXT_meshopt_compression":{}}}]}"#,
            PACKED,
            None,
        ),
        (
            r#"{"extras":{"extensions":{"EXT_meshopt_compression":0}}}"#,
            PACKED,
            None,
        ),
        (
            r#"{"extensionsUsed":["EXT_meshopt_compressio"]}"#,
            None,
            None,
        ),
        (
            r#"{"extensionsUsed":["KHR_meshopt_compression","EXT_meshopt_compression"]}"#,
            PACKED,
            FOREIGN,
        ),
    ];
    assert_forms(&rt, rt.alloc(), ROWS)
}

// What stands before and behind a name in the list of extensions in use.
const USED: (&str, &str) = (r#"{"extensionsUsed":[""#, r#""]}"#);

// Whether an asset with these extensions is closed.
fn is_closed(alloc: Global, before: &str, names: &str, after: &str) -> Result<bool, Fail> {
    let mut text = Vec::new(alloc);
    text.extend_from_slice(before.as_bytes())?;
    text.extend_from_slice(names.as_bytes())?;
    text.extend_from_slice(after.as_bytes())?;
    let root = read(alloc, &text)?;
    let asset = read_asset(alloc, &root, None, Form::Any)?;
    Ok(asset.is_closed())
}

// The same, where it is known.
fn assert_closed(
    rt: &impl Abort,
    alloc: Global,
    (before, after): (&str, &str),
    name: &str,
    want: bool,
) -> Result<(), Fail> {
    let closed = is_closed(alloc, before, name, after)?;
    assert_eq!(rt; closed, want, "{before}{name}{after}");
    Ok(())
}

#[test]
fn the_list_is_closed(rt: HostRuntime) -> Result<(), Fail> {
    const ROWS: &[&str] = &[
        "EXT_meshopt_compression",
        "EXT_texture_webp",
        "KHR_lights_punctual",
        "KHR_mesh_quantization",
        "KHR_texture_basisu",
        "KHR_texture_transform",
        "KHR_materials_anisotropy",
        "KHR_materials_clearcoat",
        "KHR_materials_dispersion",
        "KHR_materials_emissive_strength",
        "KHR_materials_ior",
        "KHR_materials_iridescence",
        "KHR_materials_pbrSpecularGlossiness",
        "KHR_materials_sheen",
        "KHR_materials_specular",
        "KHR_materials_transmission",
        "KHR_materials_unlit",
        "KHR_materials_variants",
        "KHR_materials_volume",
        r#"KHR_materials_volum\u0065"#,
    ];
    for &name in ROWS {
        assert_closed(&rt, rt.alloc(), USED, name, true)?;
    }
    Ok(())
}

#[test]
fn other_extensions_are_not_on_the_list(rt: HostRuntime) -> Result<(), Fail> {
    const ROWS: &[&str] = &[
        "",
        "EXT_mesh_gpu_instancing",
        "KHR_draco_mesh_compression",
        "KHR_materials",
        "KHR_materials_volumes",
        "EXT_texture_WEBP",
        "EXT_lights_image_based",
    ];
    let required = (
        r#"{"extensionsRequired":["KHR_materials_ior",""#,
        r#"","KHR_materials_ior"]}"#,
    );
    let under_extras = (
        r#"{"extras":{"extensions":{"KHR_materials_ior":0,""#,
        r#"":0}}}"#,
    );
    for &name in ROWS {
        assert_closed(&rt, rt.alloc(), USED, name, false)?;
        assert_closed(&rt, rt.alloc(), required, name, false)?;
        assert_closed(&rt, rt.alloc(), under_extras, name, false)?;
    }
    assert_closed(&rt, rt.alloc(), ("{", "}"), "", true)
}
