//! Small files. The texts and the stream were written by hand; the text of shared accessors was counted number by number, by
//! another program.
use crate::analyse;
use gp_asset::Refusal;
use gp_groups::StreamFault;
use std::test::Fail;

// The smallest container: the JSON `{}`, padded.
const LEAST: &[u8] = b"glTF\x02\0\0\0\x18\0\0\0\x04\0\0\0JSON{}  ";

// Four vertices, and a stream of the indices of two triangles; points and a triangle over an accessor of zeros; and a primitive
// without attributes.
const SMALL: &[u8] =
    br#"{"extensionsUsed":["EXT_meshopt_compression"],"buffers":[{"byteLength":43,"uri":"data:application/octet-stream;base64,AAAAAAAAAAAAAAAAAAAAAAAAAAAAAAAAAAAAAAAAAADRAAQEBggEAAAAAA=="}],"bufferViews":[{"buffer":0,"byteLength":32,"byteStride":8},{"buffer":0,"byteLength":24,"extensions":{"EXT_meshopt_compression":{"buffer":0,"byteOffset":32,"byteLength":11,"byteStride":4,"count":6,"mode":"INDICES"}}}],"accessors":[{"bufferView":0,"componentType":5123,"count":4,"type":"VEC3"},{"bufferView":1,"componentType":5125,"count":6,"type":"SCALAR"},{"componentType":5126,"count":3,"type":"VEC3"}],"meshes":[{"primitives":[{"attributes":{"POSITION":0},"indices":1},{"attributes":{"POSITION":2},"mode":0}]},{"primitives":[{"attributes":{"POSITION":2}},{"attributes":{}}]}]}"#;

// A stream of indices whose first byte begins one of triangles.
const FAULTY: &[u8] =
    br#"{"extensionsUsed":["EXT_meshopt_compression"],"buffers":[{"byteLength":11,"uri":"data:application/octet-stream;base64,4QAEBAYIBAAAAAA="}],"bufferViews":[{"buffer":0,"byteLength":1},{"buffer":0,"byteLength":24,"extensions":{"EXT_meshopt_compression":{"buffer":0,"byteLength":11,"byteStride":4,"count":6,"mode":"INDICES"}}}]}"#;

// Primitives that share accessors without a view of nine million elements: vertices, zeros as indices, and zeros but for two.
const SHARED: &[u8] =
    br#"{"buffers":[{"byteLength":12,"uri":"data:application/octet-stream;base64,AgAFABQAAAAHAAAA"}],"bufferViews":[{"buffer":0,"byteLength":4},{"buffer":0,"byteOffset":4,"byteLength":8}],"accessors":[{"componentType":5126,"count":9000000,"type":"VEC3"},{"componentType":5125,"count":9000000,"type":"SCALAR"},{"componentType":5125,"count":9000000,"type":"SCALAR","sparse":{"count":2,"indices":{"bufferView":0,"componentType":5123},"values":{"bufferView":1}}},{"componentType":5121,"count":21,"type":"SCALAR"},{"componentType":5121,"count":20,"type":"SCALAR"}],"meshes":[{"primitives":[{"attributes":{"POSITION":0}},{"attributes":{"POSITION":0}},{"attributes":{"POSITION":0}},{"attributes":{"POSITION":0},"indices":1},{"attributes":{"POSITION":0},"indices":2},{"attributes":{"POSITION":3},"indices":2},{"attributes":{"POSITION":4},"indices":2},{"attributes":{"POSITION":3},"indices":1}]}]}"#;

#[test]
fn the_smallest_container_has_nothing(rt: HostRuntime) -> Result<(), Fail> {
    let text = analyse(rt.alloc(), LEAST)?;
    assert_eq!(rt;
        text.as_slice(),
        b"groups 0 movable 0 views 0 packed 0\n".as_slice()
    );
    Ok(())
}

#[test]
fn triangles_have_lines(rt: HostRuntime) -> Result<(), Fail> {
    let text = analyse(rt.alloc(), SMALL)?;
    assert_eq!(rt;
        text.as_slice(),
        b"mesh 0 primitive 0 vertices 4 triangles 2 misses 4 lines 1\nmesh 1 primitive 0 vertices 3 triangles 1 misses 3 lines 1\nmesh 1 primitive 1 not a plain list\ngroups 3 movable 1 views 2 packed 1\n".as_slice()
    );
    Ok(())
}

#[test]
fn accessors_may_be_shared(rt: HostRuntime) -> Result<(), Fail> {
    let text = analyse(rt.alloc(), SHARED)?;
    assert_eq!(rt;
        text.as_slice(),
        b"mesh 0 primitive 0 vertices 9000000 triangles 3000000 misses 9000000 lines 1687500\nmesh 0 primitive 1 vertices 9000000 triangles 3000000 misses 9000000 lines 1687500\nmesh 0 primitive 2 vertices 9000000 triangles 3000000 misses 9000000 lines 1687500\nmesh 0 primitive 3 vertices 9000000 triangles 3000000 misses 1 lines 1\nmesh 0 primitive 4 vertices 9000000 triangles 3000000 misses 3 lines 3\nmesh 0 primitive 5 vertices 21 triangles 3000000 misses 3 lines 2\nmesh 0 primitive 6 not a plain list\nmesh 0 primitive 7 vertices 21 triangles 3000000 misses 1 lines 1\ngroups 3 movable 0 views 2 packed 0\n".as_slice()
    );
    Ok(())
}

#[test]
fn the_fault_of_a_stream_is_told(rt: HostRuntime) -> Result<(), Fail> {
    let refusal = analyse(rt.alloc(), FAULTY).err();
    assert_eq!(rt;
        refusal,
        Some(Refusal::Stream {
            view: 1,
            fault: StreamFault::Header
        })
    );
    Ok(())
}
