//! Small lists and small files. The texts were written by hand, and are what another program gives.
use super::*;
use gp_asset::Refusal;
use gp_groups::StreamFault;
use std::test::Fail;

#[test]
fn a_square_is_one_meshlet(rt: HostRuntime) -> Result<(), Fail> {
    let built = build(rt.alloc(), &[0, 1, 2, 0, 2, 3])?;
    let all = built.as_slice();
    assert_eq!(rt; all.len(), 1);
    assert_eq!(rt; all[0].vertices.as_slice(), [0, 1, 2, 3].as_slice());
    assert_eq!(rt; all[0].corners.as_slice(), [0, 1, 2, 0, 2, 3].as_slice());
    Ok(())
}

#[test]
fn no_triangles_are_no_meshlets(rt: HostRuntime) -> Result<(), Fail> {
    let built = build(rt.alloc(), &[])?;
    assert_eq!(rt; built.as_slice().len(), 0);
    Ok(())
}

#[test]
fn equal_corners_have_one_vertex(rt: HostRuntime) -> Result<(), Fail> {
    let built = build(rt.alloc(), &[7, 7, 7, 4294967295, 7, 4294967295])?;
    let all = built.as_slice();
    assert_eq!(rt; all.len(), 1);
    assert_eq!(rt; all[0].vertices.as_slice(), [7, 4294967295].as_slice());
    assert_eq!(rt; all[0].corners.as_slice(), [0, 0, 0, 1, 0, 1].as_slice());
    Ok(())
}

#[test]
fn a_meshlet_ends_with_126_triangles(rt: HostRuntime) -> Result<(), Fail> {
    let mut list = Vec::new(rt.alloc());
    for _ in 0..127 {
        list.extend_from_slice(&[0, 1, 2])?;
    }
    assert_eq!(rt; list.len() % 3, 0);
    let built = build(rt.alloc(), &list)?;
    let all = built.as_slice();
    assert_eq!(rt; all.len(), 2);
    assert_eq!(rt; all[0].corners.as_slice().len(), 378);
    assert_eq!(rt; all[1].corners.as_slice(), [0, 1, 2].as_slice());
    Ok(())
}

#[test]
fn a_meshlet_ends_before_65_vertices(rt: HostRuntime) -> Result<(), Fail> {
    let mut list = Vec::new(rt.alloc());
    for vertex in 0..66 {
        list.push(vertex)?;
    }
    assert_eq!(rt; list.len() % 3, 0);
    let built = build(rt.alloc(), &list)?;
    let all = built.as_slice();
    assert_eq!(rt; all.len(), 2);
    assert_eq!(rt; all[0].vertices.as_slice().len(), 63);
    assert_eq!(rt; all[0].corners.as_slice().len(), 63);
    assert_eq!(rt; all[1].vertices.as_slice(), [63, 64, 65].as_slice());
    assert_eq!(rt; all[1].corners.as_slice(), [0, 1, 2].as_slice());
    Ok(())
}

// Four vertices, and a stream of the indices of two triangles; points and a triangle over an accessor of zeros; and a primitive
// without attributes.
const SMALL: &[u8] =
    br#"{"extensionsUsed":["EXT_meshopt_compression"],"buffers":[{"byteLength":43,"uri":"data:application/octet-stream;base64,AAAAAAAAAAAAAAAAAAAAAAAAAAAAAAAAAAAAAAAAAADRAAQEBggEAAAAAA=="}],"bufferViews":[{"buffer":0,"byteLength":32,"byteStride":8},{"buffer":0,"byteLength":24,"extensions":{"EXT_meshopt_compression":{"buffer":0,"byteOffset":32,"byteLength":11,"byteStride":4,"count":6,"mode":"INDICES"}}}],"accessors":[{"bufferView":0,"componentType":5123,"count":4,"type":"VEC3"},{"bufferView":1,"componentType":5125,"count":6,"type":"SCALAR"},{"componentType":5126,"count":3,"type":"VEC3"}],"meshes":[{"primitives":[{"attributes":{"POSITION":0},"indices":1},{"attributes":{"POSITION":2},"mode":0}]},{"primitives":[{"attributes":{"POSITION":2}},{"attributes":{}}]}]}"#;

// A stream of indices whose first byte begins one of triangles.
const FAULTY: &[u8] =
    br#"{"extensionsUsed":["EXT_meshopt_compression"],"buffers":[{"byteLength":11,"uri":"data:application/octet-stream;base64,4QAEBAYIBAAAAAA="}],"bufferViews":[{"buffer":0,"byteLength":1},{"buffer":0,"byteLength":24,"extensions":{"EXT_meshopt_compression":{"buffer":0,"byteLength":11,"byteStride":4,"count":6,"mode":"INDICES"}}}]}"#;

// Primitives that share an accessor without a view, nine million zeros but for one 20 and one 7: over 20 and 2 vertices it is no
// plain list; and one of zeros alone.
const SHARED: &[u8] =
    br#"{"buffers":[{"byteLength":12,"uri":"data:application/octet-stream;base64,AgAFABQAAAAHAAAA"}],"bufferViews":[{"buffer":0,"byteLength":4},{"buffer":0,"byteOffset":4,"byteLength":8}],"accessors":[{"componentType":5121,"count":20,"type":"SCALAR"},{"componentType":5121,"count":2,"type":"SCALAR"},{"componentType":5125,"count":9000000,"type":"SCALAR","sparse":{"count":2,"indices":{"bufferView":0,"componentType":5123},"values":{"bufferView":1}}},{"componentType":5125,"count":9,"type":"SCALAR"}],"meshes":[{"primitives":[{"attributes":{"POSITION":0},"indices":2},{"attributes":{"POSITION":1},"indices":2},{"attributes":{"POSITION":1},"indices":3},{"attributes":{"POSITION":1}}]}]}"#;

#[test]
fn triangles_have_lines(rt: HostRuntime) -> Result<(), Fail> {
    let text = meshlets(rt.alloc(), SMALL)?;
    assert_eq!(rt;
        text.as_slice(),
        b"mesh 0 primitive 0 meshlets 1\nvertices 0 1 2 3\ncorners 0 1 2 0 2 3\nmesh 1 primitive 0 meshlets 1\nvertices 0 1 2\ncorners 0 1 2\nmesh 1 primitive 1 not a plain list\n".as_slice()
    );
    Ok(())
}

#[test]
fn accessors_may_be_shared(rt: HostRuntime) -> Result<(), Fail> {
    let text = meshlets(rt.alloc(), SHARED)?;
    assert_eq!(rt;
        text.as_slice(),
        b"mesh 0 primitive 0 not a plain list\nmesh 0 primitive 1 not a plain list\nmesh 0 primitive 2 meshlets 1\nvertices 0\ncorners 0 0 0 0 0 0 0 0 0\nmesh 0 primitive 3 not a plain list\n".as_slice()
    );
    Ok(())
}

#[test]
fn the_fault_of_a_stream_is_told(rt: HostRuntime) -> Result<(), Fail> {
    let refusal = meshlets(rt.alloc(), FAULTY).err();
    assert_eq!(rt;
        refusal,
        Some(Refusal::Stream {
            view: 1,
            fault: StreamFault::Header
        })
    );
    Ok(())
}
