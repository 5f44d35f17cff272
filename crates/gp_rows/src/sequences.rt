// What `pack` answers for views of indices whose numbers have other types than indices should.
use crate::files::ends_with;
use gp_app::Status;
use std::test::Fail;

// A file that is packed: the input, the output and the line of the report.
const SEQUENCES: [(&[u8], &[u8], &[u8]); 2] = [
    // Indices that are signed numbers of two bytes: a sequence.
    (
        b"glTF\x02\0\0\0\x1c\x01\0\0\xe0\0\0\0JSON{\"buffers\":[{\"byteLength\":32}],\"bufferViews\":[{\"buffer\":0,\"byteLength\":32}],\"accessors\":[{\"bufferView\":0,\"componentType\":5122,\"count\":16,\"type\":\"SCALAR\"}],\"meshes\":[{\"primitives\":[{\"attributes\":{},\"indices\":0,\"mode\":1}]}]}   \0\0\0BIN\0\xf8\xff\xf9\xff\xfa\xff\xfb\xff\xfc\xff\xfd\xff\xfe\xff\xff\xff\0\0\x01\0\x02\0\x03\0\x04\0\x05\0\x06\0\x07\0",
        b"glTF\x02\0\0\0L\x02\0\0\x18\x02\0\0JSON{\"buffers\":[{\"byteLength\":23},{\"byteLength\":32,\"extensions\":{\"EXT_meshopt_compression\":{\"fallback\":true}}}],\"bufferViews\":[{\"buffer\":1,\"byteLength\":32,\"byteOffset\":0,\"extensions\":{\"EXT_meshopt_compression\":{\"buffer\":0,\"byteOffset\":0,\"byteLength\":23,\"byteStride\":2,\"count\":16,\"mode\":\"INDICES\"}}}],\"accessors\":[{\"bufferView\":0,\"componentType\":5122,\"count\":16,\"type\":\"SCALAR\"}],\"meshes\":[{\"primitives\":[{\"attributes\":{},\"indices\":0,\"mode\":1}]}],\"extensionsUsed\":[\"EXT_meshopt_compression\"],\"extensionsRequired\":[\"EXT_meshopt_compression\"]}\x18\0\0\0BIN\0\xd1\xe1\xff\x0f\x05\x05\x05\x05\x05\x05\x05\0\x04\x04\x04\x04\x04\x04\x04\0\0\0\0\0",
        b"packed views 1 of 1 in 284 out 588\n",
    ),
    // Indices that are floats: a sequence of their bits.
    (
        b"glTF\x02\0\0\0<\x01\0\0\xe0\0\0\0JSON{\"buffers\":[{\"byteLength\":64}],\"bufferViews\":[{\"buffer\":0,\"byteLength\":64}],\"accessors\":[{\"bufferView\":0,\"componentType\":5126,\"count\":16,\"type\":\"SCALAR\"}],\"meshes\":[{\"primitives\":[{\"attributes\":{},\"indices\":0,\"mode\":1}]}]}  @\0\0\0BIN\0\0\0\x80?\x01\0\x80?\x02\0\x80?\x03\0\x80?\x04\0\x80?\x05\0\x80?\x06\0\x80?\x07\0\x80?\x08\0\x80?\t\0\x80?\n\0\x80?\x0b\0\x80?\x0c\0\x80?\r\0\x80?\x0e\0\x80?\x0f\0\x80?",
        b"glTF\x02\0\0\0P\x02\0\0\x18\x02\0\0JSON{\"buffers\":[{\"byteLength\":25},{\"byteLength\":64,\"extensions\":{\"EXT_meshopt_compression\":{\"fallback\":true}}}],\"bufferViews\":[{\"buffer\":1,\"byteLength\":64,\"byteOffset\":0,\"extensions\":{\"EXT_meshopt_compression\":{\"buffer\":0,\"byteOffset\":0,\"byteLength\":25,\"byteStride\":4,\"count\":16,\"mode\":\"INDICES\"}}}],\"accessors\":[{\"bufferView\":0,\"componentType\":5126,\"count\":16,\"type\":\"SCALAR\"}],\"meshes\":[{\"primitives\":[{\"attributes\":{},\"indices\":0,\"mode\":1}]}],\"extensionsUsed\":[\"EXT_meshopt_compression\"],\"extensionsRequired\":[\"EXT_meshopt_compression\"]}\x1c\0\0\0BIN\0\xd1\x81\x80\x80\xf0\x0f\x05\x05\x05\x05\x05\x05\x05\x05\x05\x05\x05\x05\x05\x05\x05\0\0\0\0\0\0\0",
        b"packed views 1 of 1 in 316 out 592\n",
    ),
];

#[test]
fn numbers_of_other_types_are_sequences(rt: HostRuntime) -> Result<(), Fail> {
    for (file, out, line) in &SEQUENCES {
        assert!(rt; ends_with(rt.alloc(), "pack", file, 7, Status::Done, out, line)?);
    }
    Ok(())
}
