// What `pack` answers at the largest number of vertices whose list has two bytes an index, and past it.
use gp_app::{Status, run};
use gp_host::{MemorySink, MemorySource, NoMemory};
use std::alloc::Global;
use std::test::Fail;

// A primitive without indices: how many vertices, how many of them differ, and the file in front of the vertices, which are numbers of four
// bytes; the front of the packed file up to the end of its JSON, and the line of the report.
struct Row {
    vertices: u32,
    different: u32,
    front: &'static [u8],
    packed: &'static [u8],
    line: &'static [u8],
}

const ROWS: [Row; 2] = [
    Row {
        vertices: 65_535,
        different: 65_535,
        front: b"glTF\x02\0\0\0\xf4\0\x04\0\xdc\0\0\0JSON{\"buffers\":[{\"byteLength\":262140}],\"bufferViews\":[{\"buffer\":0,\"byteLength\":262140}],\"accessors\":[{\"bufferView\":0,\"componentType\":5125,\"count\":65535,\"type\":\"SCALAR\"}],\"meshes\":[{\"primitives\":[{\"attributes\":{\"_A\":0}}]}]}  \xfc\xff\x03\0BIN\0",
        packed: b"glTF\x02\0\0\0\x04\xad\0\0`\x03\0\0JSON{\"buffers\":[{\"byteLength\":43398},{\"byteLength\":393210,\"extensions\":{\"EXT_meshopt_compression\":{\"fallback\":true}}}],\"bufferViews\":[{\"buffer\":1,\"byteOffset\":0,\"byteLength\":262140,\"byteStride\":4,\"target\":34962,\"extensions\":{\"EXT_meshopt_compression\":{\"buffer\":0,\"byteOffset\":0,\"byteLength\":21533,\"byteStride\":4,\"count\":65535,\"mode\":\"ATTRIBUTES\"}}},{\"buffer\":1,\"byteOffset\":262140,\"byteLength\":131070,\"target\":34963,\"extensions\":{\"EXT_meshopt_compression\":{\"buffer\":0,\"byteOffset\":21536,\"byteLength\":21862,\"byteStride\":2,\"count\":65535,\"mode\":\"TRIANGLES\"}}}],\"accessors\":[{\"bufferView\":0,\"componentType\":5125,\"count\":65535,\"type\":\"SCALAR\"},{\"bufferView\":1,\"componentType\":5123,\"count\":65535,\"type\":\"SCALAR\"}],\"meshes\":[{\"primitives\":[{\"attributes\":{\"_A\":0},\"indices\":1}]}],\"extensionsUsed\":[\"EXT_meshopt_compression\"],\"extensionsRequired\":[\"EXT_meshopt_compression\"]}  ",
        line: b"packed views 2 of 2 in 262388 out 44292\n",
    },
    Row {
        vertices: 65_538,
        different: 65_536,
        front: b"glTF\x02\0\0\0\0\x01\x04\0\xdc\0\0\0JSON{\"buffers\":[{\"byteLength\":262152}],\"bufferViews\":[{\"buffer\":0,\"byteLength\":262152}],\"accessors\":[{\"bufferView\":0,\"componentType\":5125,\"count\":65538,\"type\":\"SCALAR\"}],\"meshes\":[{\"primitives\":[{\"attributes\":{\"_A\":0}}]}]}  \x08\0\x04\0BIN\0",
        packed: b"glTF\x02\0\0\0\x08\xad\0\0`\x03\0\0JSON{\"buffers\":[{\"byteLength\":43404},{\"byteLength\":524296,\"extensions\":{\"EXT_meshopt_compression\":{\"fallback\":true}}}],\"bufferViews\":[{\"buffer\":1,\"byteOffset\":0,\"byteLength\":262144,\"byteStride\":4,\"target\":34962,\"extensions\":{\"EXT_meshopt_compression\":{\"buffer\":0,\"byteOffset\":0,\"byteLength\":21539,\"byteStride\":4,\"count\":65536,\"mode\":\"ATTRIBUTES\"}}},{\"buffer\":1,\"byteOffset\":262144,\"byteLength\":262152,\"target\":34963,\"extensions\":{\"EXT_meshopt_compression\":{\"buffer\":0,\"byteOffset\":21540,\"byteLength\":21864,\"byteStride\":4,\"count\":65538,\"mode\":\"TRIANGLES\"}}}],\"accessors\":[{\"bufferView\":0,\"componentType\":5125,\"count\":65536,\"type\":\"SCALAR\"},{\"bufferView\":1,\"componentType\":5125,\"count\":65538,\"type\":\"SCALAR\"}],\"meshes\":[{\"primitives\":[{\"attributes\":{\"_A\":0},\"indices\":1}]}],\"extensionsUsed\":[\"EXT_meshopt_compression\"],\"extensionsRequired\":[\"EXT_meshopt_compression\"]}  ",
        line: b"packed views 2 of 2 in 262400 out 44296\n",
    },
];

// The file of a row.
fn file_of(alloc: Global, row: &Row) -> Result<Vec<u8>, NoMemory> {
    let mut file = Vec::from_slice(alloc, row.front)?;
    let mut number: u32 = 0;
    for _vertex in 0..row.vertices {
        file.extend_from_slice(&number.to_le_bytes())?;
        let next = number.wrapping_add(1);
        number = if next < row.different { next } else { 0 };
    }
    Ok(file)
}

#[test]
fn a_list_takes_two_bytes_an_index_up_to_65535_vertices(rt: HostRuntime) -> Result<(), Fail> {
    let alloc = rt.alloc();
    for row in &ROWS {
        let words = vec![in alloc; String::from_str(alloc, "pack")?]?;
        let mut input = MemorySource::new(file_of(alloc, row)?, 1 << 20, Vec::new(alloc));
        let mut output = MemorySink::new(alloc, 1 << 17, 1 << 20, Vec::new(alloc))?;
        let mut report = MemorySink::new(alloc, 96, 96, Vec::new(alloc))?;
        let status = run(alloc, &words, &mut input, &mut output, &mut report);
        assert_eq!(rt; status, Status::Done);
        assert_eq!(rt; report.held(), row.line);
        assert!(rt; output.held().starts_with(row.packed));
    }
    Ok(())
}
