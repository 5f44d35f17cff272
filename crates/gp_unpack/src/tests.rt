//! One asset with a plain view and a compressed one. The stream was written by hand, as EXT_meshopt_compression has it.
use crate::{Contents, decode_views};
use gp_asset::{Form, Refusal, ViewBytes, read_asset};
use gp_groups::StreamFault;
use gp_json::read;
use std::alloc::Global;
use std::test::Fail;

// Two views of a buffer of 16 bytes: its first three bytes, and the stream of three indices behind the fourth.
const TEXT: &[u8] =
    br#"{"buffers":[{"byteLength":16}],"bufferViews":[{"buffer":0,"byteLength":3},{"buffer":0,"byteLength":12,"extensions":{"EXT_meshopt_compression":{"buffer":0,"byteOffset":4,"byteLength":8,"byteStride":4,"count":3,"mode":"INDICES"}}}]}"#;

fn contents_with(alloc: Global, bin: &[u8]) -> Result<Contents, Refusal> {
    let tree = match read(alloc, TEXT) {
        Ok(tree) => tree,
        Err(refusal) => return Err(Refusal::from(refusal)),
    };
    match read_asset(alloc, &tree, Some(bin), Form::Any) {
        Ok(asset) => decode_views(alloc, &asset),
        Err(refusal) => Err(Refusal::from(refusal)),
    }
}

#[test]
fn views_are_decoded(rt: HostRuntime) -> Result<(), Fail> {
    let contents = contents_with(rt.alloc(), b"abcd\xD1\x00\x04\x04\0\0\0\0wxyz")?;
    assert!(rt; contents.has(0) && contents.has(1) && !contents.has(2));
    if contents.has(0) && contents.has(1) {
        assert_eq!(rt; contents.view(0), b"abc".as_slice());
        assert_eq!(rt;
            contents.view(1),
            b"\0\0\0\0\x01\0\0\0\x02\0\0\0".as_slice()
        );
    }
    assert_eq!(rt;
        contents.buffer(),
        b"abc\0\0\0\0\0\x01\0\0\0\x02\0\0\0".as_slice()
    );
    assert!(rt; contents.len() == 2);
    assert_eq!(rt; contents.start(1), 4);
    let buffer = contents.into_buffer();
    assert_eq!(rt; buffer.len(), 16);
    Ok(())
}

#[test]
fn the_fault_of_a_stream_is_told(rt: HostRuntime) -> Result<(), Fail> {
    let refusal = contents_with(rt.alloc(), b"abcd\xE1\x00\x04\x04\0\0\0\0wxyz").err();
    assert_eq!(rt;
        refusal,
        Some(Refusal::Stream {
            view: 1,
            fault: StreamFault::Header
        })
    );
    Ok(())
}
