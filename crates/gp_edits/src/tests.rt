//! Each edit once, from text to text.
use crate::{
    Compression, add_extension_names, compress_view, place_view, remove_compression,
    remove_extension_names, set_buffers,
};
use gp_json::{print, read};
use gp_rules::StreamMode;
use std::test::Fail;

#[test]
fn a_view_is_placed(rt: HostRuntime) -> Result<(), Fail> {
    let alloc = rt.alloc();
    let mut view = read(alloc, br#"{"buffer":1, "byteLength":3}"#)?;
    place_view(alloc, &mut view, 0, 8)?;
    let text = print(alloc, &view)?;
    assert_eq!(rt;
        text.as_slice(),
        br#"{"buffer":0,"byteLength":3,"byteOffset":8}"#.as_slice()
    );
    Ok(())
}

#[test]
fn a_form_is_removed(rt: HostRuntime) -> Result<(), Fail> {
    let alloc = rt.alloc();
    let mut view = read(
        alloc,
        br#"{"buffer":0,"extensions":{"EXT_meshopt_compression":{"buffer":1}},"byteLength":3}"#,
    )?;
    remove_compression(&mut view);
    let text = print(alloc, &view)?;
    assert_eq!(rt;
        text.as_slice(),
        br#"{"buffer":0,"byteLength":3}"#.as_slice()
    );
    Ok(())
}

#[test]
fn one_buffer_is_left(rt: HostRuntime) -> Result<(), Fail> {
    let alloc = rt.alloc();
    let mut root = read(
        alloc,
        br#"{"asset":{},"buffers":[{"byteLength":3},{"uri":"a"}],"scene":0}"#,
    )?;
    set_buffers(alloc, &mut root, Some(1234), None)?;
    let text = print(alloc, &root)?;
    assert_eq!(rt;
        text.as_slice(),
        br#"{"asset":{},"buffers":[{"byteLength":1234}],"scene":0}"#.as_slice()
    );
    Ok(())
}

#[test]
fn the_name_is_removed(rt: HostRuntime) -> Result<(), Fail> {
    let alloc = rt.alloc();
    let mut root = read(
        alloc,
        br#"{"extensionsUsed":["\u0045XT_meshopt_compression","KHR_x","EXT_meshopt_compression"],"extensionsRequired":["EXT_meshopt_compression"]}"#,
    )?;
    remove_extension_names(alloc, &mut root);
    let text = print(alloc, &root)?;
    assert_eq!(rt;
        text.as_slice(),
        br#"{"extensionsUsed":["KHR_x"]}"#.as_slice()
    );
    Ok(())
}

#[test]
fn a_view_is_compressed(rt: HostRuntime) -> Result<(), Fail> {
    let alloc = rt.alloc();
    let mut view = read(
        alloc,
        br#"{"buffer":1,"extensions":{"KHR_x":{}},"byteLength":64}"#,
    )?;
    let compression = Compression {
        offset: 8,
        length: 37,
        stride: 4,
        count: 16,
        mode: StreamMode::Attributes,
    };
    compress_view(alloc, &mut view, compression)?;
    let text = print(alloc, &view)?;
    assert_eq!(rt;
        text.as_slice(),
        br#"{"buffer":1,"extensions":{"KHR_x":{},"EXT_meshopt_compression":{"buffer":0,"byteOffset":8,"byteLength":37,"byteStride":4,"count":16,"mode":"ATTRIBUTES"}},"byteLength":64}"#.as_slice()
    );
    Ok(())
}

#[test]
fn two_buffers_are_left(rt: HostRuntime) -> Result<(), Fail> {
    let alloc = rt.alloc();
    let mut root = read(alloc, br#"{"buffers":[{"byteLength":3}],"scene":0}"#)?;
    set_buffers(alloc, &mut root, Some(40), Some(64))?;
    let text = print(alloc, &root)?;
    assert_eq!(rt;
        text.as_slice(),
        br#"{"buffers":[{"byteLength":40},{"byteLength":64,"extensions":{"EXT_meshopt_compression":{"fallback":true}}}],"scene":0}"#.as_slice()
    );
    Ok(())
}

#[test]
fn the_name_is_added(rt: HostRuntime) -> Result<(), Fail> {
    let alloc = rt.alloc();
    let mut root = read(alloc, br#"{"extensionsUsed":["KHR_x"],"scene":0}"#)?;
    add_extension_names(alloc, &mut root)?;
    let text = print(alloc, &root)?;
    assert_eq!(rt;
        text.as_slice(),
        br#"{"extensionsUsed":["KHR_x","EXT_meshopt_compression"],"scene":0,"extensionsRequired":["EXT_meshopt_compression"]}"#.as_slice()
    );
    Ok(())
}
