//! Small files. The outputs are what another program gives.
use super::*;
use gp_asset::Refusal;
use gp_glb::split;
use gp_groups::StreamFault;
use std::alloc::Global;
use std::test::Fail;

// A file, the JSON and the BIN chunk of its output, and how many lists are in it.
struct Row<'a> {
    input: &'a [u8],
    json: &'a [u8],
    bin: &'a [u8],
    listed: u32,
}

fn is_listed(alloc: Global, row: &Row<'_>) -> Result<bool, Refusal> {
    let out = lists(alloc, row.input)?;
    let chunks = split(out.glb.as_slice())?;
    Ok(
        out.listed == row.listed
            && chunks.json == row.json
            && chunks.bin == Some(row.bin)
            && chunks.rest.is_empty(),
    )
}

const LISTED: [Row<'static>; 7] = [
    // A GLB: a strip of four vertices without indices.
    Row {
        input: b"glTF\x02\0\0\0\x08\x01\0\0\xdc\0\0\0JSON{\"buffers\":[{\"byteLength\":16}],\"bufferViews\":[{\"buffer\":0,\"byteLength\":16}],\"accessors\":[{\"bufferView\":0,\"componentType\":5121,\"count\":4,\"type\":\"VEC4\"}],\"meshes\":[{\"primitives\":[{\"attributes\":{\"POSITION\":0},\"mode\":5}]}]} \x10\0\0\0BIN\0\0\x01\x02\x03\x04\x05\x06\x07\x08\x09\x0a\x0b\x0c\x0d\x0e\x0f",
        json: br#"{"buffers":[{"byteLength":40}],"bufferViews":[{"buffer":0,"byteLength":16,"byteOffset":0},{"buffer":0,"byteOffset":16,"byteLength":24,"target":34963}],"accessors":[{"bufferView":0,"componentType":5121,"count":4,"type":"VEC4"},{"bufferView":1,"componentType":5125,"count":6,"type":"SCALAR"}],"meshes":[{"primitives":[{"attributes":{"POSITION":0},"mode":4,"indices":1}]}]}  "#,
        bin: b"\0\x01\x02\x03\x04\x05\x06\x07\x08\x09\x0a\x0b\x0c\x0d\x0e\x0f\0\0\0\0\x01\0\0\0\x02\0\0\0\x01\0\0\0\x03\0\0\0\x02\0\0\0",
        listed: 1,
    },
    // A strip of three, one triangle; 13 bytes of vertices, and the list at the next multiple of 4.
    Row {
        input: br#"{"buffers":[{"byteLength":13,"uri":"data:application/octet-stream;base64,AAECAwQFBgcICQoLDA=="}],"bufferViews":[{"buffer":0,"byteLength":13}],"accessors":[{"bufferView":0,"componentType":5121,"count":3,"type":"VEC4"}],"meshes":[{"primitives":[{"attributes":{"POSITION":0},"mode":5}]}]}"#,
        json: br#"{"buffers":[{"byteLength":28}],"bufferViews":[{"buffer":0,"byteLength":13,"byteOffset":0},{"buffer":0,"byteOffset":16,"byteLength":12,"target":34963}],"accessors":[{"bufferView":0,"componentType":5121,"count":3,"type":"VEC4"},{"bufferView":1,"componentType":5125,"count":3,"type":"SCALAR"}],"meshes":[{"primitives":[{"attributes":{"POSITION":0},"mode":4,"indices":1}]}]}  "#,
        bin: b"\0\x01\x02\x03\x04\x05\x06\x07\x08\x09\x0a\x0b\x0c\0\0\0\0\0\0\0\x01\0\0\0\x02\0\0\0",
        listed: 1,
    },
    // An odd strip of bytes, a fan of two bytes a number, and a strip of four; meshes with one primitive and with two.
    Row {
        input: br#"{"buffers":[{"byteLength":44,"uri":"data:application/octet-stream;base64,AAECAwQFBgcICQoLDA0ODwMCAQACAAAAAAABAAIAAwACAAAAAAAAAAEAAAA="}],"bufferViews":[{"buffer":0,"byteOffset":0,"byteLength":16},{"buffer":0,"byteOffset":16,"byteLength":5},{"buffer":0,"byteOffset":24,"byteLength":8},{"buffer":0,"byteOffset":32,"byteLength":12}],"accessors":[{"bufferView":0,"componentType":5121,"count":4,"type":"VEC4"},{"bufferView":1,"componentType":5121,"count":5,"type":"SCALAR"},{"bufferView":2,"componentType":5123,"count":4,"type":"SCALAR"},{"bufferView":3,"componentType":5125,"count":3,"type":"SCALAR"}],"meshes":[{"primitives":[{"attributes":{"POSITION":0},"indices":1,"mode":5}]},{"primitives":[{"attributes":{"POSITION":0},"indices":2,"mode":6},{"attributes":{"POSITION":0},"indices":3,"mode":5}]}]}"#,
        json: br#"{"buffers":[{"byteLength":116}],"bufferViews":[{"buffer":0,"byteOffset":0,"byteLength":16},{"buffer":0,"byteOffset":16,"byteLength":5},{"buffer":0,"byteOffset":24,"byteLength":8},{"buffer":0,"byteOffset":32,"byteLength":12},{"buffer":0,"byteOffset":44,"byteLength":36,"target":34963},{"buffer":0,"byteOffset":80,"byteLength":24,"target":34963},{"buffer":0,"byteOffset":104,"byteLength":12,"target":34963}],"accessors":[{"bufferView":0,"componentType":5121,"count":4,"type":"VEC4"},{"bufferView":1,"componentType":5121,"count":5,"type":"SCALAR"},{"bufferView":2,"componentType":5123,"count":4,"type":"SCALAR"},{"bufferView":3,"componentType":5125,"count":3,"type":"SCALAR"},{"bufferView":4,"componentType":5125,"count":9,"type":"SCALAR"},{"bufferView":5,"componentType":5125,"count":6,"type":"SCALAR"},{"bufferView":6,"componentType":5125,"count":3,"type":"SCALAR"}],"meshes":[{"primitives":[{"attributes":{"POSITION":0},"indices":4,"mode":4}]},{"primitives":[{"attributes":{"POSITION":0},"indices":5,"mode":4},{"attributes":{"POSITION":0},"indices":6,"mode":4}]}]}"#,
        bin: b"\0\x01\x02\x03\x04\x05\x06\x07\x08\x09\x0a\x0b\x0c\x0d\x0e\x0f\x03\x02\x01\0\x02\0\0\0\0\0\x01\0\x02\0\x03\0\x02\0\0\0\0\0\0\0\x01\0\0\0\x03\0\0\0\x02\0\0\0\x01\0\0\0\x02\0\0\0\0\0\0\0\x01\0\0\0\x01\0\0\0\0\0\0\0\x02\0\0\0\x01\0\0\0\x02\0\0\0\0\0\0\0\x02\0\0\0\x03\0\0\0\0\0\0\0\x02\0\0\0\0\0\0\0\x01\0\0\0",
        listed: 3,
    },
    // Indices that are zeros but for two; and a sparse accessor whose places don't rise, which is not listed.
    Row {
        input: br#"{"buffers":[{"byteLength":24,"uri":"data:application/octet-stream;base64,AAECAwQFBgcICQoLDA0ODwEDAAADAAEA"}],"bufferViews":[{"buffer":0,"byteOffset":0,"byteLength":16},{"buffer":0,"byteOffset":16,"byteLength":2},{"buffer":0,"byteOffset":20,"byteLength":4}],"accessors":[{"bufferView":0,"componentType":5121,"count":4,"type":"VEC4"},{"componentType":5123,"count":4,"type":"SCALAR","sparse":{"count":2,"indices":{"bufferView":1,"componentType":5121},"values":{"bufferView":2}}},{"componentType":5123,"count":4,"type":"SCALAR","sparse":{"count":2,"indices":{"bufferView":2,"componentType":5121},"values":{"bufferView":2}}}],"meshes":[{"primitives":[{"attributes":{"POSITION":0},"indices":1,"mode":5}]},{"primitives":[{"attributes":{"POSITION":0},"indices":2,"mode":5}]}]}"#,
        json: br#"{"buffers":[{"byteLength":48}],"bufferViews":[{"buffer":0,"byteOffset":0,"byteLength":16},{"buffer":0,"byteOffset":16,"byteLength":2},{"buffer":0,"byteOffset":20,"byteLength":4},{"buffer":0,"byteOffset":24,"byteLength":24,"target":34963}],"accessors":[{"bufferView":0,"componentType":5121,"count":4,"type":"VEC4"},{"componentType":5123,"count":4,"type":"SCALAR","sparse":{"count":2,"indices":{"bufferView":1,"componentType":5121},"values":{"bufferView":2}}},{"componentType":5123,"count":4,"type":"SCALAR","sparse":{"count":2,"indices":{"bufferView":2,"componentType":5121},"values":{"bufferView":2}}},{"bufferView":3,"componentType":5125,"count":6,"type":"SCALAR"}],"meshes":[{"primitives":[{"attributes":{"POSITION":0},"indices":3,"mode":4}]},{"primitives":[{"attributes":{"POSITION":0},"indices":2,"mode":5}]}]}  "#,
        bin: b"\0\x01\x02\x03\x04\x05\x06\x07\x08\x09\x0a\x0b\x0c\x0d\x0e\x0f\x01\x03\0\0\x03\0\x01\0\0\0\0\0\x03\0\0\0\0\0\0\0\x03\0\0\0\x01\0\0\0\0\0\0\0",
        listed: 1,
    },
    // Two primitives over one accessor of a strip: each gets a list of its own.
    Row {
        input: br#"{"buffers":[{"byteLength":20,"uri":"data:application/octet-stream;base64,AAECAwQFBgcICQoLDA0ODwABAgM="}],"bufferViews":[{"buffer":0,"byteOffset":0,"byteLength":16},{"buffer":0,"byteOffset":16,"byteLength":4}],"accessors":[{"bufferView":0,"componentType":5121,"count":4,"type":"VEC4"},{"bufferView":1,"componentType":5121,"count":4,"type":"SCALAR"}],"meshes":[{"primitives":[{"attributes":{"POSITION":0},"indices":1,"mode":5}]},{"primitives":[{"attributes":{"POSITION":0},"indices":1,"mode":6}]}]}"#,
        json: br#"{"buffers":[{"byteLength":68}],"bufferViews":[{"buffer":0,"byteOffset":0,"byteLength":16},{"buffer":0,"byteOffset":16,"byteLength":4},{"buffer":0,"byteOffset":20,"byteLength":24,"target":34963},{"buffer":0,"byteOffset":44,"byteLength":24,"target":34963}],"accessors":[{"bufferView":0,"componentType":5121,"count":4,"type":"VEC4"},{"bufferView":1,"componentType":5121,"count":4,"type":"SCALAR"},{"bufferView":2,"componentType":5125,"count":6,"type":"SCALAR"},{"bufferView":3,"componentType":5125,"count":6,"type":"SCALAR"}],"meshes":[{"primitives":[{"attributes":{"POSITION":0},"indices":2,"mode":4}]},{"primitives":[{"attributes":{"POSITION":0},"indices":3,"mode":4}]}]}  "#,
        bin: b"\0\x01\x02\x03\x04\x05\x06\x07\x08\x09\x0a\x0b\x0c\x0d\x0e\x0f\0\x01\x02\x03\0\0\0\0\x01\0\0\0\x02\0\0\0\x01\0\0\0\x03\0\0\0\x02\0\0\0\x01\0\0\0\x02\0\0\0\0\0\0\0\x02\0\0\0\x03\0\0\0\0\0\0\0",
        listed: 2,
    },
    // Meshes without primitives before others.
    Row {
        input: br#"{"buffers":[{"byteLength":16,"uri":"data:application/octet-stream;base64,AAECAwQFBgcICQoLDA0ODw=="}],"bufferViews":[{"buffer":0,"byteOffset":0,"byteLength":16}],"accessors":[{"bufferView":0,"componentType":5121,"count":4,"type":"VEC4"}],"meshes":[{"primitives":[]},{"primitives":[{"attributes":{"POSITION":0},"mode":5}]},{"primitives":[]},{"primitives":[{"attributes":{"POSITION":0},"mode":4},{"attributes":{"POSITION":0},"mode":6}]}]}"#,
        json: br#"{"buffers":[{"byteLength":64}],"bufferViews":[{"buffer":0,"byteOffset":0,"byteLength":16},{"buffer":0,"byteOffset":16,"byteLength":24,"target":34963},{"buffer":0,"byteOffset":40,"byteLength":24,"target":34963}],"accessors":[{"bufferView":0,"componentType":5121,"count":4,"type":"VEC4"},{"bufferView":1,"componentType":5125,"count":6,"type":"SCALAR"},{"bufferView":2,"componentType":5125,"count":6,"type":"SCALAR"}],"meshes":[{"primitives":[]},{"primitives":[{"attributes":{"POSITION":0},"mode":4,"indices":1}]},{"primitives":[]},{"primitives":[{"attributes":{"POSITION":0},"mode":4},{"attributes":{"POSITION":0},"mode":4,"indices":2}]}]}   "#,
        bin: b"\0\x01\x02\x03\x04\x05\x06\x07\x08\x09\x0a\x0b\x0c\x0d\x0e\x0f\0\0\0\0\x01\0\0\0\x02\0\0\0\x01\0\0\0\x03\0\0\0\x02\0\0\0\x01\0\0\0\x02\0\0\0\0\0\0\0\x02\0\0\0\x03\0\0\0\0\0\0\0",
        listed: 2,
    },
    // Indices in a stream, which is decoded.
    Row {
        input: br#"{"extensionsUsed":["EXT_meshopt_compression"],"buffers":[{"byteLength":43,"uri":"data:application/octet-stream;base64,AAAAAAAAAAAAAAAAAAAAAAAAAAAAAAAAAAAAAAAAAADRAAQEBggEAAAAAA=="}],"bufferViews":[{"buffer":0,"byteLength":32,"byteStride":8},{"buffer":0,"byteLength":24,"extensions":{"EXT_meshopt_compression":{"buffer":0,"byteOffset":32,"byteLength":11,"byteStride":4,"count":6,"mode":"INDICES"}}}],"accessors":[{"bufferView":0,"componentType":5123,"count":4,"type":"VEC3"},{"bufferView":1,"componentType":5125,"count":6,"type":"SCALAR"}],"meshes":[{"primitives":[{"attributes":{"POSITION":0},"indices":1,"mode":5}]}]}"#,
        json: br#"{"buffers":[{"byteLength":104}],"bufferViews":[{"buffer":0,"byteLength":32,"byteStride":8,"byteOffset":0},{"buffer":0,"byteLength":24,"byteOffset":32},{"buffer":0,"byteOffset":56,"byteLength":48,"target":34963}],"accessors":[{"bufferView":0,"componentType":5123,"count":4,"type":"VEC3"},{"bufferView":1,"componentType":5125,"count":6,"type":"SCALAR"},{"bufferView":2,"componentType":5125,"count":12,"type":"SCALAR"}],"meshes":[{"primitives":[{"attributes":{"POSITION":0},"indices":2,"mode":4}]}]}"#,
        bin: b"\0\0\0\0\0\0\0\0\0\0\0\0\0\0\0\0\0\0\0\0\0\0\0\0\0\0\0\0\0\0\0\0\0\0\0\0\x01\0\0\0\x02\0\0\0\0\0\0\0\x02\0\0\0\x03\0\0\0\0\0\0\0\x01\0\0\0\x02\0\0\0\x01\0\0\0\0\0\0\0\x02\0\0\0\x02\0\0\0\0\0\0\0\x02\0\0\0\0\0\0\0\x03\0\0\0\x02\0\0\0",
        listed: 1,
    },
];

#[test]
fn strips_and_fans_become_lists(rt: HostRuntime) -> Result<(), Fail> {
    for row in LISTED.iter() {
        assert!(rt; is_listed(rt.alloc(), row)?);
    }
    Ok(())
}

const UNLISTED: [Row<'static>; 5] = [
    // Two vertices make no triangle: nothing is listed.
    Row {
        input: br#"{"buffers":[{"byteLength":8,"uri":"data:application/octet-stream;base64,AAECAwQFBgc="}],"bufferViews":[{"buffer":0,"byteLength":8}],"accessors":[{"bufferView":0,"componentType":5121,"count":2,"type":"VEC4"}],"meshes":[{"primitives":[{"attributes":{"POSITION":0},"mode":5}]}]}"#,
        json: br#"{"buffers":[{"byteLength":8}],"bufferViews":[{"buffer":0,"byteLength":8,"byteOffset":0}],"accessors":[{"bufferView":0,"componentType":5121,"count":2,"type":"VEC4"}],"meshes":[{"primitives":[{"attributes":{"POSITION":0},"mode":5}]}]}"#,
        bin: b"\0\x01\x02\x03\x04\x05\x06\x07",
        listed: 0,
    },
    // Values that restart the primitive, and one that is of no vertex: none is listed.
    Row {
        input: br#"{"buffers":[{"byteLength":32,"uri":"data:application/octet-stream;base64,AAECAwQFBgcICQoLDA0ODwAB/wIAAAEA//8CAAABAgQ="}],"bufferViews":[{"buffer":0,"byteOffset":0,"byteLength":16},{"buffer":0,"byteOffset":16,"byteLength":4},{"buffer":0,"byteOffset":20,"byteLength":8},{"buffer":0,"byteOffset":28,"byteLength":4}],"accessors":[{"bufferView":0,"componentType":5121,"count":4,"type":"VEC4"},{"bufferView":1,"componentType":5121,"count":4,"type":"SCALAR"},{"bufferView":2,"componentType":5123,"count":4,"type":"SCALAR"},{"bufferView":3,"componentType":5121,"count":4,"type":"SCALAR"}],"meshes":[{"primitives":[{"attributes":{"POSITION":0},"indices":1,"mode":5}]},{"primitives":[{"attributes":{"POSITION":0},"indices":2,"mode":6}]},{"primitives":[{"attributes":{"POSITION":0},"indices":3,"mode":5}]}]}"#,
        json: br#"{"buffers":[{"byteLength":32}],"bufferViews":[{"buffer":0,"byteOffset":0,"byteLength":16},{"buffer":0,"byteOffset":16,"byteLength":4},{"buffer":0,"byteOffset":20,"byteLength":8},{"buffer":0,"byteOffset":28,"byteLength":4}],"accessors":[{"bufferView":0,"componentType":5121,"count":4,"type":"VEC4"},{"bufferView":1,"componentType":5121,"count":4,"type":"SCALAR"},{"bufferView":2,"componentType":5123,"count":4,"type":"SCALAR"},{"bufferView":3,"componentType":5121,"count":4,"type":"SCALAR"}],"meshes":[{"primitives":[{"attributes":{"POSITION":0},"indices":1,"mode":5}]},{"primitives":[{"attributes":{"POSITION":0},"indices":2,"mode":6}]},{"primitives":[{"attributes":{"POSITION":0},"indices":3,"mode":5}]}]}  "#,
        bin: b"\0\x01\x02\x03\x04\x05\x06\x07\x08\x09\x0a\x0b\x0c\x0d\x0e\x0f\0\x01\xff\x02\0\0\x01\0\xff\xff\x02\0\0\x01\x02\x04",
        listed: 0,
    },
    // Points, a loop of lines, triangles, and a strip without attributes: none is listed.
    Row {
        input: br#"{"buffers":[{"byteLength":16,"uri":"data:application/octet-stream;base64,AAECAwQFBgcICQoLDA0ODw=="}],"bufferViews":[{"buffer":0,"byteOffset":0,"byteLength":16}],"accessors":[{"bufferView":0,"componentType":5121,"count":4,"type":"VEC4"}],"meshes":[{"primitives":[{"attributes":{"POSITION":0},"mode":0}]},{"primitives":[{"attributes":{"POSITION":0},"mode":2}]},{"primitives":[{"attributes":{"POSITION":0},"mode":4}]},{"primitives":[{"attributes":{},"mode":5}]},{"primitives":[{"attributes":{"POSITION":0}}]}]}"#,
        json: br#"{"buffers":[{"byteLength":16}],"bufferViews":[{"buffer":0,"byteOffset":0,"byteLength":16}],"accessors":[{"bufferView":0,"componentType":5121,"count":4,"type":"VEC4"}],"meshes":[{"primitives":[{"attributes":{"POSITION":0},"mode":0}]},{"primitives":[{"attributes":{"POSITION":0},"mode":2}]},{"primitives":[{"attributes":{"POSITION":0},"mode":4}]},{"primitives":[{"attributes":{},"mode":5}]},{"primitives":[{"attributes":{"POSITION":0}}]}]}   "#,
        bin: b"\0\x01\x02\x03\x04\x05\x06\x07\x08\x09\x0a\x0b\x0c\x0d\x0e\x0f",
        listed: 0,
    },
    // An extension that may use vertices in other ways: nothing is listed.
    Row {
        input: br#"{"buffers":[{"byteLength":16,"uri":"data:application/octet-stream;base64,AAECAwQFBgcICQoLDA0ODw=="}],"bufferViews":[{"buffer":0,"byteOffset":0,"byteLength":16}],"accessors":[{"bufferView":0,"componentType":5121,"count":4,"type":"VEC4"}],"meshes":[{"primitives":[{"attributes":{"POSITION":0},"mode":5}]}],"extensionsUsed":["X_other"]}"#,
        json: br#"{"buffers":[{"byteLength":16}],"bufferViews":[{"buffer":0,"byteOffset":0,"byteLength":16}],"accessors":[{"bufferView":0,"componentType":5121,"count":4,"type":"VEC4"}],"meshes":[{"primitives":[{"attributes":{"POSITION":0},"mode":5}]}],"extensionsUsed":["X_other"]} "#,
        bin: b"\0\x01\x02\x03\x04\x05\x06\x07\x08\x09\x0a\x0b\x0c\x0d\x0e\x0f",
        listed: 0,
    },
    // Attributes of which one has fewer elements.
    Row {
        input: br#"{"buffers":[{"byteLength":16,"uri":"data:application/octet-stream;base64,AAECAwQFBgcICQoLDA0ODw=="}],"bufferViews":[{"buffer":0,"byteOffset":0,"byteLength":16}],"accessors":[{"bufferView":0,"componentType":5121,"count":4,"type":"VEC4"},{"bufferView":0,"componentType":5121,"count":3,"type":"VEC4"}],"meshes":[{"primitives":[{"attributes":{"POSITION":0,"NORMAL":1},"mode":5}]}]}"#,
        json: br#"{"buffers":[{"byteLength":16}],"bufferViews":[{"buffer":0,"byteOffset":0,"byteLength":16}],"accessors":[{"bufferView":0,"componentType":5121,"count":4,"type":"VEC4"},{"bufferView":0,"componentType":5121,"count":3,"type":"VEC4"}],"meshes":[{"primitives":[{"attributes":{"POSITION":0,"NORMAL":1},"mode":5}]}]} "#,
        bin: b"\0\x01\x02\x03\x04\x05\x06\x07\x08\x09\x0a\x0b\x0c\x0d\x0e\x0f",
        listed: 0,
    },
];

#[test]
fn what_cannot_be_a_list_stays(rt: HostRuntime) -> Result<(), Fail> {
    for row in UNLISTED.iter() {
        assert!(rt; is_listed(rt.alloc(), row)?);
    }
    Ok(())
}

const MADE_VIEWS: [Row<'static>; 2] = [
    // No views and no buffers before: both are made at the end of the root.
    Row {
        input: br#"{"accessors":[{"componentType":5121,"count":3,"type":"VEC4"}],"meshes":[{"primitives":[{"attributes":{"POSITION":0},"mode":6}]}],"scene":0}"#,
        json: br#"{"accessors":[{"componentType":5121,"count":3,"type":"VEC4"},{"bufferView":0,"componentType":5125,"count":3,"type":"SCALAR"}],"meshes":[{"primitives":[{"attributes":{"POSITION":0},"mode":4,"indices":1}]}],"scene":0,"bufferViews":[{"buffer":0,"byteOffset":0,"byteLength":12,"target":34963}],"buffers":[{"byteLength":12}]}"#,
        bin: b"\x01\0\0\0\x02\0\0\0\0\0\0\0",
        listed: 1,
    },
    // Morph targets: with as many elements, and with other many, which isn't listed.
    Row {
        input: br#"{"buffers":[{"byteLength":16,"uri":"data:application/octet-stream;base64,AAECAwQFBgcICQoLDA0ODw=="}],"bufferViews":[{"buffer":0,"byteOffset":0,"byteLength":16}],"accessors":[{"bufferView":0,"componentType":5121,"count":4,"type":"VEC4"},{"bufferView":0,"componentType":5121,"count":3,"type":"VEC4"},{"bufferView":0,"componentType":5121,"count":4,"type":"VEC4"}],"meshes":[{"primitives":[{"attributes":{"POSITION":0},"mode":5,"targets":[{"POSITION":2}]}]},{"primitives":[{"attributes":{"POSITION":0},"mode":5,"targets":[{"POSITION":2},{"POSITION":1}]}]}]}"#,
        json: br#"{"buffers":[{"byteLength":40}],"bufferViews":[{"buffer":0,"byteOffset":0,"byteLength":16},{"buffer":0,"byteOffset":16,"byteLength":24,"target":34963}],"accessors":[{"bufferView":0,"componentType":5121,"count":4,"type":"VEC4"},{"bufferView":0,"componentType":5121,"count":3,"type":"VEC4"},{"bufferView":0,"componentType":5121,"count":4,"type":"VEC4"},{"bufferView":1,"componentType":5125,"count":6,"type":"SCALAR"}],"meshes":[{"primitives":[{"attributes":{"POSITION":0},"mode":4,"targets":[{"POSITION":2}],"indices":3}]},{"primitives":[{"attributes":{"POSITION":0},"mode":5,"targets":[{"POSITION":2},{"POSITION":1}]}]}]} "#,
        bin: b"\0\x01\x02\x03\x04\x05\x06\x07\x08\x09\x0a\x0b\x0c\x0d\x0e\x0f\0\0\0\0\x01\0\0\0\x02\0\0\0\x01\0\0\0\x03\0\0\0\x02\0\0\0",
        listed: 1,
    },
];

#[test]
fn views_are_made(rt: HostRuntime) -> Result<(), Fail> {
    for row in MADE_VIEWS.iter() {
        assert!(rt; is_listed(rt.alloc(), row)?);
    }
    Ok(())
}

// A stream of indices whose first byte begins one of triangles.
const FAULTY: &[u8] =
    br#"{"extensionsUsed":["EXT_meshopt_compression"],"buffers":[{"byteLength":11,"uri":"data:application/octet-stream;base64,4QAEBAYIBAAAAAA="}],"bufferViews":[{"buffer":0,"byteLength":1},{"buffer":0,"byteLength":24,"extensions":{"EXT_meshopt_compression":{"buffer":0,"byteLength":11,"byteStride":4,"count":6,"mode":"INDICES"}}}]}"#;

#[test]
fn the_fault_of_a_stream_is_told(rt: HostRuntime) -> Result<(), Fail> {
    let refusal = lists(rt.alloc(), FAULTY).err();
    assert_eq!(rt;
        refusal,
        Some(Refusal::Stream {
            view: 1,
            fault: StreamFault::Header
        })
    );
    Ok(())
}

#[test]
fn a_strip_and_a_fan_of_four(rt: HostRuntime) -> Result<(), Fail> {
    let strip = triangles(rt.alloc(), 5, &[0, 1, 2, 3])?;
    assert_eq!(rt; strip.as_slice(), [0, 1, 2, 1, 3, 2].as_slice());
    let fan = triangles(rt.alloc(), 6, &[0, 1, 2, 3])?;
    assert_eq!(rt; fan.as_slice(), [1, 2, 0, 2, 3, 0].as_slice());
    Ok(())
}
