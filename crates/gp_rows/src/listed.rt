// What `lists` answers for whole files.
use crate::files::ends_with;
use gp_app::Status;
use std::test::Fail;

// A file whose strips and fans become lists: the input, the output and the line of the report.
type Listed = (&'static [u8], &'static [u8], &'static [u8]);

const LISTED: [Listed; 25] = [
    // A strip of four vertices.
    (
        b"glTF\x02\0\0\0\x08\x01\0\0\xdc\0\0\0JSON{\"buffers\":[{\"byteLength\":16}],\"bufferViews\":[{\"buffer\":0,\"byteLength\":16}],\"accessors\":[{\"bufferView\":0,\"componentType\":5121,\"count\":4,\"type\":\"VEC4\"}],\"meshes\":[{\"primitives\":[{\"attributes\":{\"POSITION\":0},\"mode\":5}]}]} \x10\0\0\0BIN\0\x01\x02\x03\x04\x05\x06\x07\x08\t\n\x0b\x0c\r\x0e\x0f\x10",
        b"glTF\x02\0\0\0\xb8\x01\0\0t\x01\0\0JSON{\"buffers\":[{\"byteLength\":40}],\"bufferViews\":[{\"buffer\":0,\"byteLength\":16,\"byteOffset\":0},{\"buffer\":0,\"byteOffset\":16,\"byteLength\":24,\"target\":34963}],\"accessors\":[{\"bufferView\":0,\"componentType\":5121,\"count\":4,\"type\":\"VEC4\"},{\"bufferView\":1,\"componentType\":5125,\"count\":6,\"type\":\"SCALAR\"}],\"meshes\":[{\"primitives\":[{\"attributes\":{\"POSITION\":0},\"mode\":4,\"indices\":1}]}]}  (\0\0\0BIN\0\x01\x02\x03\x04\x05\x06\x07\x08\t\n\x0b\x0c\r\x0e\x0f\x10\0\0\0\0\x01\0\0\0\x02\0\0\0\x01\0\0\0\x03\0\0\0\x02\0\0\0",
        b"listed primitives 1 in 264 out 440\n",
    ),
    // Two vertices are no strip: the file is unpacked.
    (
        b"glTF\x02\0\0\0\0\x01\0\0\xdc\0\0\0JSON{\"buffers\":[{\"byteLength\":8}],\"bufferViews\":[{\"buffer\":0,\"byteLength\":8}],\"accessors\":[{\"bufferView\":0,\"componentType\":5121,\"count\":2,\"type\":\"VEC4\"}],\"meshes\":[{\"primitives\":[{\"attributes\":{\"POSITION\":0},\"mode\":5}]}]}   \x08\0\0\0BIN\0\x01\x02\x03\x04\x05\x06\x07\x08",
        b"glTF\x02\0\0\0\x0c\x01\0\0\xe8\0\0\0JSON{\"buffers\":[{\"byteLength\":8}],\"bufferViews\":[{\"buffer\":0,\"byteLength\":8,\"byteOffset\":0}],\"accessors\":[{\"bufferView\":0,\"componentType\":5121,\"count\":2,\"type\":\"VEC4\"}],\"meshes\":[{\"primitives\":[{\"attributes\":{\"POSITION\":0},\"mode\":5}]}]}\x08\0\0\0BIN\0\x01\x02\x03\x04\x05\x06\x07\x08",
        b"listed primitives 0 in 256 out 268\n",
    ),
    // The least strip.
    (
        b"glTF\x02\0\0\0 \x01\0\0\xf8\0\0\0JSON{\"asset\":{\"version\":\"2.0\"},\"buffers\":[{\"byteLength\":12}],\"bufferViews\":[{\"buffer\":0,\"byteLength\":12}],\"accessors\":[{\"bufferView\":0,\"componentType\":5121,\"count\":3,\"type\":\"VEC4\"}],\"meshes\":[{\"primitives\":[{\"attributes\":{\"POSITION\":0},\"mode\":5}]}]}   \x0c\0\0\0BIN\0\x01\x02\x03\x04\x05\x06\x07\x08\t\n\x0b\x0c",
        b"glTF\x02\0\0\0\xc0\x01\0\0\x8c\x01\0\0JSON{\"asset\":{\"version\":\"2.0\"},\"buffers\":[{\"byteLength\":24}],\"bufferViews\":[{\"buffer\":0,\"byteLength\":12,\"byteOffset\":0},{\"buffer\":0,\"byteOffset\":12,\"byteLength\":12,\"target\":34963}],\"accessors\":[{\"bufferView\":0,\"componentType\":5121,\"count\":3,\"type\":\"VEC4\"},{\"bufferView\":1,\"componentType\":5125,\"count\":3,\"type\":\"SCALAR\"}],\"meshes\":[{\"primitives\":[{\"attributes\":{\"POSITION\":0},\"mode\":4,\"indices\":1}]}]}\x18\0\0\0BIN\0\x01\x02\x03\x04\x05\x06\x07\x08\t\n\x0b\x0c\0\0\0\0\x01\0\0\0\x02\0\0\0",
        b"listed primitives 1 in 288 out 448\n",
    ),
    // A strip of an odd number of vertices.
    (
        b"glTF\x02\0\0\0(\x01\0\0\xf8\0\0\0JSON{\"asset\":{\"version\":\"2.0\"},\"buffers\":[{\"byteLength\":20}],\"bufferViews\":[{\"buffer\":0,\"byteLength\":20}],\"accessors\":[{\"bufferView\":0,\"componentType\":5121,\"count\":5,\"type\":\"VEC4\"}],\"meshes\":[{\"primitives\":[{\"attributes\":{\"POSITION\":0},\"mode\":5}]}]}   \x14\0\0\0BIN\0\x01\x02\x03\x04\x05\x06\x07\x08\t\n\x0b\x0c\r\x0e\x0f\x10\x11\x12\x13\x14",
        b"glTF\x02\0\0\0\xe0\x01\0\0\x8c\x01\0\0JSON{\"asset\":{\"version\":\"2.0\"},\"buffers\":[{\"byteLength\":56}],\"bufferViews\":[{\"buffer\":0,\"byteLength\":20,\"byteOffset\":0},{\"buffer\":0,\"byteOffset\":20,\"byteLength\":36,\"target\":34963}],\"accessors\":[{\"bufferView\":0,\"componentType\":5121,\"count\":5,\"type\":\"VEC4\"},{\"bufferView\":1,\"componentType\":5125,\"count\":9,\"type\":\"SCALAR\"}],\"meshes\":[{\"primitives\":[{\"attributes\":{\"POSITION\":0},\"mode\":4,\"indices\":1}]}]}8\0\0\0BIN\0\x01\x02\x03\x04\x05\x06\x07\x08\t\n\x0b\x0c\r\x0e\x0f\x10\x11\x12\x13\x14\0\0\0\0\x01\0\0\0\x02\0\0\0\x01\0\0\0\x03\0\0\0\x02\0\0\0\x02\0\0\0\x03\0\0\0\x04\0\0\0",
        b"listed primitives 1 in 296 out 480\n",
    ),
    // A fan.
    (
        b"glTF\x02\0\0\0(\x01\0\0\xf8\0\0\0JSON{\"asset\":{\"version\":\"2.0\"},\"buffers\":[{\"byteLength\":20}],\"bufferViews\":[{\"buffer\":0,\"byteLength\":20}],\"accessors\":[{\"bufferView\":0,\"componentType\":5121,\"count\":5,\"type\":\"VEC4\"}],\"meshes\":[{\"primitives\":[{\"attributes\":{\"POSITION\":0},\"mode\":6}]}]}   \x14\0\0\0BIN\0\x01\x02\x03\x04\x05\x06\x07\x08\t\n\x0b\x0c\r\x0e\x0f\x10\x11\x12\x13\x14",
        b"glTF\x02\0\0\0\xe0\x01\0\0\x8c\x01\0\0JSON{\"asset\":{\"version\":\"2.0\"},\"buffers\":[{\"byteLength\":56}],\"bufferViews\":[{\"buffer\":0,\"byteLength\":20,\"byteOffset\":0},{\"buffer\":0,\"byteOffset\":20,\"byteLength\":36,\"target\":34963}],\"accessors\":[{\"bufferView\":0,\"componentType\":5121,\"count\":5,\"type\":\"VEC4\"},{\"bufferView\":1,\"componentType\":5125,\"count\":9,\"type\":\"SCALAR\"}],\"meshes\":[{\"primitives\":[{\"attributes\":{\"POSITION\":0},\"mode\":4,\"indices\":1}]}]}8\0\0\0BIN\0\x01\x02\x03\x04\x05\x06\x07\x08\t\n\x0b\x0c\r\x0e\x0f\x10\x11\x12\x13\x14\x01\0\0\0\x02\0\0\0\0\0\0\0\x02\0\0\0\x03\0\0\0\0\0\0\0\x03\0\0\0\x04\0\0\0\0\0\0\0",
        b"listed primitives 1 in 296 out 480\n",
    ),
    // A strip by indices of one byte, the greatest but one among them.
    (
        b"glTF\x02\0\0\0T\x01\0\04\x01\0\0JSON{\"asset\":{\"version\":\"2.0\"},\"buffers\":[{\"byteLength\":4}],\"bufferViews\":[{\"buffer\":0,\"byteLength\":4}],\"accessors\":[{\"componentType\":5121,\"count\":300,\"type\":\"VEC4\"},{\"bufferView\":0,\"componentType\":5121,\"count\":4,\"type\":\"SCALAR\"}],\"meshes\":[{\"primitives\":[{\"attributes\":{\"POSITION\":0},\"indices\":1,\"mode\":5}]}]}  \x04\0\0\0BIN\0\x03\xfe\0\x07",
        b"glTF\x02\0\0\0\xf8\x01\0\0\xc0\x01\0\0JSON{\"asset\":{\"version\":\"2.0\"},\"buffers\":[{\"byteLength\":28}],\"bufferViews\":[{\"buffer\":0,\"byteLength\":4,\"byteOffset\":0},{\"buffer\":0,\"byteOffset\":4,\"byteLength\":24,\"target\":34963}],\"accessors\":[{\"componentType\":5121,\"count\":300,\"type\":\"VEC4\"},{\"bufferView\":0,\"componentType\":5121,\"count\":4,\"type\":\"SCALAR\"},{\"bufferView\":1,\"componentType\":5125,\"count\":6,\"type\":\"SCALAR\"}],\"meshes\":[{\"primitives\":[{\"attributes\":{\"POSITION\":0},\"indices\":2,\"mode\":4}]}]}   \x1c\0\0\0BIN\0\x03\xfe\0\x07\x03\0\0\0\xfe\0\0\0\0\0\0\0\xfe\0\0\0\x07\0\0\0\0\0\0\0",
        b"listed primitives 1 in 340 out 504\n",
    ),
    // The greatest value of a byte begins another strip: it isn't listed.
    (
        b"glTF\x02\0\0\0T\x01\0\04\x01\0\0JSON{\"asset\":{\"version\":\"2.0\"},\"buffers\":[{\"byteLength\":4}],\"bufferViews\":[{\"buffer\":0,\"byteLength\":4}],\"accessors\":[{\"componentType\":5121,\"count\":300,\"type\":\"VEC4\"},{\"bufferView\":0,\"componentType\":5121,\"count\":4,\"type\":\"SCALAR\"}],\"meshes\":[{\"primitives\":[{\"attributes\":{\"POSITION\":0},\"indices\":1,\"mode\":5}]}]}  \x04\0\0\0BIN\0\x03\xff\0\x07",
        b"glTF\x02\0\0\0d\x01\0\0D\x01\0\0JSON{\"asset\":{\"version\":\"2.0\"},\"buffers\":[{\"byteLength\":4}],\"bufferViews\":[{\"buffer\":0,\"byteLength\":4,\"byteOffset\":0}],\"accessors\":[{\"componentType\":5121,\"count\":300,\"type\":\"VEC4\"},{\"bufferView\":0,\"componentType\":5121,\"count\":4,\"type\":\"SCALAR\"}],\"meshes\":[{\"primitives\":[{\"attributes\":{\"POSITION\":0},\"indices\":1,\"mode\":5}]}]}   \x04\0\0\0BIN\0\x03\xff\0\x07",
        b"listed primitives 0 in 340 out 356\n",
    ),
    // A fan by indices of two bytes, with two bytes of padding before its list.
    (
        b"glTF\x02\0\0\0\\\x01\0\04\x01\0\0JSON{\"asset\":{\"version\":\"2.0\"},\"buffers\":[{\"byteLength\":10}],\"bufferViews\":[{\"buffer\":0,\"byteLength\":10}],\"accessors\":[{\"componentType\":5121,\"count\":300,\"type\":\"VEC4\"},{\"bufferView\":0,\"componentType\":5123,\"count\":5,\"type\":\"SCALAR\"}],\"meshes\":[{\"primitives\":[{\"attributes\":{\"POSITION\":0},\"indices\":1,\"mode\":6}]}]}\x0c\0\0\0BIN\0+\x01\0\0\x01\0\xff\0\x02\0\0\0",
        b"glTF\x02\0\0\0\x0c\x02\0\0\xc0\x01\0\0JSON{\"asset\":{\"version\":\"2.0\"},\"buffers\":[{\"byteLength\":48}],\"bufferViews\":[{\"buffer\":0,\"byteLength\":10,\"byteOffset\":0},{\"buffer\":0,\"byteOffset\":12,\"byteLength\":36,\"target\":34963}],\"accessors\":[{\"componentType\":5121,\"count\":300,\"type\":\"VEC4\"},{\"bufferView\":0,\"componentType\":5123,\"count\":5,\"type\":\"SCALAR\"},{\"bufferView\":1,\"componentType\":5125,\"count\":9,\"type\":\"SCALAR\"}],\"meshes\":[{\"primitives\":[{\"attributes\":{\"POSITION\":0},\"indices\":2,\"mode\":4}]}]} 0\0\0\0BIN\0+\x01\0\0\x01\0\xff\0\x02\0\0\0\0\0\0\0\x01\0\0\0+\x01\0\0\x01\0\0\0\xff\0\0\0+\x01\0\0\xff\0\0\0\x02\0\0\0+\x01\0\0",
        b"listed primitives 1 in 348 out 524\n",
    ),
    // The greatest value of two bytes isn't listed.
    (
        b"glTF\x02\0\0\0X\x01\0\04\x01\0\0JSON{\"asset\":{\"version\":\"2.0\"},\"buffers\":[{\"byteLength\":6}],\"bufferViews\":[{\"buffer\":0,\"byteLength\":6}],\"accessors\":[{\"componentType\":5121,\"count\":70000,\"type\":\"VEC4\"},{\"bufferView\":0,\"componentType\":5123,\"count\":3,\"type\":\"SCALAR\"}],\"meshes\":[{\"primitives\":[{\"attributes\":{\"POSITION\":0},\"indices\":1,\"mode\":6}]}]}\x08\0\0\0BIN\0\0\0\x01\0\xff\xff\0\0",
        b"glTF\x02\0\0\0h\x01\0\0D\x01\0\0JSON{\"asset\":{\"version\":\"2.0\"},\"buffers\":[{\"byteLength\":6}],\"bufferViews\":[{\"buffer\":0,\"byteLength\":6,\"byteOffset\":0}],\"accessors\":[{\"componentType\":5121,\"count\":70000,\"type\":\"VEC4\"},{\"bufferView\":0,\"componentType\":5123,\"count\":3,\"type\":\"SCALAR\"}],\"meshes\":[{\"primitives\":[{\"attributes\":{\"POSITION\":0},\"indices\":1,\"mode\":6}]}]} \x08\0\0\0BIN\0\0\0\x01\0\xff\xff\0\0",
        b"listed primitives 0 in 344 out 360\n",
    ),
    // A strip by indices of four bytes, past the greatest of two.
    (
        b"glTF\x02\0\0\0d\x01\0\08\x01\0\0JSON{\"asset\":{\"version\":\"2.0\"},\"buffers\":[{\"byteLength\":16}],\"bufferViews\":[{\"buffer\":0,\"byteLength\":16}],\"accessors\":[{\"componentType\":5121,\"count\":70000,\"type\":\"VEC4\"},{\"bufferView\":0,\"componentType\":5125,\"count\":4,\"type\":\"SCALAR\"}],\"meshes\":[{\"primitives\":[{\"attributes\":{\"POSITION\":0},\"indices\":1,\"mode\":5}]}]}  \x10\0\0\0BIN\0\xff\xff\0\0\0\0\x01\0o\x11\x01\0\0\0\0\0",
        b"glTF\x02\0\0\0\x08\x02\0\0\xc4\x01\0\0JSON{\"asset\":{\"version\":\"2.0\"},\"buffers\":[{\"byteLength\":40}],\"bufferViews\":[{\"buffer\":0,\"byteLength\":16,\"byteOffset\":0},{\"buffer\":0,\"byteOffset\":16,\"byteLength\":24,\"target\":34963}],\"accessors\":[{\"componentType\":5121,\"count\":70000,\"type\":\"VEC4\"},{\"bufferView\":0,\"componentType\":5125,\"count\":4,\"type\":\"SCALAR\"},{\"bufferView\":1,\"componentType\":5125,\"count\":6,\"type\":\"SCALAR\"}],\"meshes\":[{\"primitives\":[{\"attributes\":{\"POSITION\":0},\"indices\":2,\"mode\":4}]}]}   (\0\0\0BIN\0\xff\xff\0\0\0\0\x01\0o\x11\x01\0\0\0\0\0\xff\xff\0\0\0\0\x01\0o\x11\x01\0\0\0\x01\0\0\0\0\0o\x11\x01\0",
        b"listed primitives 1 in 356 out 520\n",
    ),
    // A value that is no vertex: it isn't listed.
    (
        b"glTF\x02\0\0\0\x9c\x01\0\0p\x01\0\0JSON{\"asset\":{\"version\":\"2.0\"},\"buffers\":[{\"byteLength\":15}],\"bufferViews\":[{\"buffer\":0,\"byteLength\":12},{\"buffer\":0,\"byteOffset\":12,\"byteLength\":3}],\"accessors\":[{\"bufferView\":0,\"componentType\":5121,\"count\":3,\"type\":\"VEC4\"},{\"bufferView\":1,\"componentType\":5121,\"count\":3,\"type\":\"SCALAR\"}],\"meshes\":[{\"primitives\":[{\"attributes\":{\"POSITION\":0},\"indices\":1,\"mode\":5}]}]}   \x10\0\0\0BIN\0\x01\x02\x03\x04\x05\x06\x07\x08\t\n\x0b\x0c\0\x01\x03\0",
        b"glTF\x02\0\0\0\xa8\x01\0\0|\x01\0\0JSON{\"asset\":{\"version\":\"2.0\"},\"buffers\":[{\"byteLength\":15}],\"bufferViews\":[{\"buffer\":0,\"byteLength\":12,\"byteOffset\":0},{\"buffer\":0,\"byteOffset\":12,\"byteLength\":3}],\"accessors\":[{\"bufferView\":0,\"componentType\":5121,\"count\":3,\"type\":\"VEC4\"},{\"bufferView\":1,\"componentType\":5121,\"count\":3,\"type\":\"SCALAR\"}],\"meshes\":[{\"primitives\":[{\"attributes\":{\"POSITION\":0},\"indices\":1,\"mode\":5}]}]}\x10\0\0\0BIN\0\x01\x02\x03\x04\x05\x06\x07\x08\t\n\x0b\x0c\0\x01\x03\0",
        b"listed primitives 0 in 412 out 424\n",
    ),
    // Sparse indices without a view: 0 2 1 0.
    (
        b"glTF\x02\0\0\0\x1c\x02\0\0\xec\x01\0\0JSON{\"asset\":{\"version\":\"2.0\"},\"buffers\":[{\"byteLength\":18}],\"bufferViews\":[{\"buffer\":0,\"byteLength\":12},{\"buffer\":0,\"byteOffset\":12,\"byteLength\":2},{\"buffer\":0,\"byteOffset\":16,\"byteLength\":2}],\"accessors\":[{\"bufferView\":0,\"componentType\":5121,\"count\":3,\"type\":\"VEC4\"},{\"componentType\":5121,\"count\":4,\"type\":\"SCALAR\",\"sparse\":{\"count\":2,\"indices\":{\"bufferView\":1,\"componentType\":5121},\"values\":{\"bufferView\":2}}}],\"meshes\":[{\"primitives\":[{\"attributes\":{\"POSITION\":0},\"indices\":1,\"mode\":5}]}]}   \x14\0\0\0BIN\0\x01\x02\x03\x04\x05\x06\x07\x08\t\n\x0b\x0c\x01\x02\0\0\x02\x01\0\0",
        b"glTF\x02\0\0\0\xbc\x02\0\0t\x02\0\0JSON{\"asset\":{\"version\":\"2.0\"},\"buffers\":[{\"byteLength\":44}],\"bufferViews\":[{\"buffer\":0,\"byteLength\":12,\"byteOffset\":0},{\"buffer\":0,\"byteOffset\":12,\"byteLength\":2},{\"buffer\":0,\"byteOffset\":16,\"byteLength\":2},{\"buffer\":0,\"byteOffset\":20,\"byteLength\":24,\"target\":34963}],\"accessors\":[{\"bufferView\":0,\"componentType\":5121,\"count\":3,\"type\":\"VEC4\"},{\"componentType\":5121,\"count\":4,\"type\":\"SCALAR\",\"sparse\":{\"count\":2,\"indices\":{\"bufferView\":1,\"componentType\":5121},\"values\":{\"bufferView\":2}}},{\"bufferView\":3,\"componentType\":5125,\"count\":6,\"type\":\"SCALAR\"}],\"meshes\":[{\"primitives\":[{\"attributes\":{\"POSITION\":0},\"indices\":2,\"mode\":4}]}]},\0\0\0BIN\0\x01\x02\x03\x04\x05\x06\x07\x08\t\n\x0b\x0c\x01\x02\0\0\x02\x01\0\0\0\0\0\0\x02\0\0\0\x01\0\0\0\x02\0\0\0\0\0\0\0\x01\0\0\0",
        b"listed primitives 1 in 540 out 700\n",
    ),
    // Sparse indices whose places aren't below the count: they aren't listed.
    (
        b"glTF\x02\0\0\0\x1c\x02\0\0\xec\x01\0\0JSON{\"asset\":{\"version\":\"2.0\"},\"buffers\":[{\"byteLength\":18}],\"bufferViews\":[{\"buffer\":0,\"byteLength\":12},{\"buffer\":0,\"byteOffset\":12,\"byteLength\":2},{\"buffer\":0,\"byteOffset\":16,\"byteLength\":2}],\"accessors\":[{\"bufferView\":0,\"componentType\":5121,\"count\":3,\"type\":\"VEC4\"},{\"componentType\":5121,\"count\":4,\"type\":\"SCALAR\",\"sparse\":{\"count\":2,\"indices\":{\"bufferView\":1,\"componentType\":5121},\"values\":{\"bufferView\":2}}}],\"meshes\":[{\"primitives\":[{\"attributes\":{\"POSITION\":0},\"indices\":1,\"mode\":5}]}]}   \x14\0\0\0BIN\0\x01\x02\x03\x04\x05\x06\x07\x08\t\n\x0b\x0c\x01\x04\0\0\x02\x01\0\0",
        b"glTF\x02\0\0\0(\x02\0\0\xf8\x01\0\0JSON{\"asset\":{\"version\":\"2.0\"},\"buffers\":[{\"byteLength\":18}],\"bufferViews\":[{\"buffer\":0,\"byteLength\":12,\"byteOffset\":0},{\"buffer\":0,\"byteOffset\":12,\"byteLength\":2},{\"buffer\":0,\"byteOffset\":16,\"byteLength\":2}],\"accessors\":[{\"bufferView\":0,\"componentType\":5121,\"count\":3,\"type\":\"VEC4\"},{\"componentType\":5121,\"count\":4,\"type\":\"SCALAR\",\"sparse\":{\"count\":2,\"indices\":{\"bufferView\":1,\"componentType\":5121},\"values\":{\"bufferView\":2}}}],\"meshes\":[{\"primitives\":[{\"attributes\":{\"POSITION\":0},\"indices\":1,\"mode\":5}]}]}\x14\0\0\0BIN\0\x01\x02\x03\x04\x05\x06\x07\x08\t\n\x0b\x0c\x01\x04\0\0\x02\x01\0\0",
        b"listed primitives 0 in 540 out 552\n",
    ),
    // A target with as many vertices, and the names and bounds that are there.
    (
        b"glTF\x02\0\0\0\xf4\x01\0\0\xc0\x01\0\0JSON{\"asset\":{\"version\":\"2.0\"},\"scene\":0,\"buffers\":[{\"byteLength\":24}],\"bufferViews\":[{\"buffer\":0,\"byteLength\":12},{\"buffer\":0,\"byteOffset\":12,\"byteLength\":12}],\"accessors\":[{\"bufferView\":0,\"componentType\":5121,\"count\":3,\"type\":\"VEC4\",\"min\":[1,2,3,4],\"max\":[9,10,11,12]},{\"bufferView\":1,\"componentType\":5121,\"count\":3,\"type\":\"VEC4\"}],\"meshes\":[{\"primitives\":[{\"attributes\":{\"POSITION\":0},\"mode\":5,\"targets\":[{\"POSITION\":1}],\"extras\":{\"a\":[1.5]}}]}]}   \x18\0\0\0BIN\0\x01\x02\x03\x04\x05\x06\x07\x08\t\n\x0b\x0c\x01\x02\x03\x04\x05\x06\x07\x08\t\n\x0b\x0c",
        b"glTF\x02\0\0\0\x94\x02\0\0T\x02\0\0JSON{\"asset\":{\"version\":\"2.0\"},\"scene\":0,\"buffers\":[{\"byteLength\":36}],\"bufferViews\":[{\"buffer\":0,\"byteLength\":12,\"byteOffset\":0},{\"buffer\":0,\"byteOffset\":12,\"byteLength\":12},{\"buffer\":0,\"byteOffset\":24,\"byteLength\":12,\"target\":34963}],\"accessors\":[{\"bufferView\":0,\"componentType\":5121,\"count\":3,\"type\":\"VEC4\",\"min\":[1,2,3,4],\"max\":[9,10,11,12]},{\"bufferView\":1,\"componentType\":5121,\"count\":3,\"type\":\"VEC4\"},{\"bufferView\":2,\"componentType\":5125,\"count\":3,\"type\":\"SCALAR\"}],\"meshes\":[{\"primitives\":[{\"attributes\":{\"POSITION\":0},\"mode\":4,\"targets\":[{\"POSITION\":1}],\"extras\":{\"a\":[1.5]},\"indices\":2}]}]}$\0\0\0BIN\0\x01\x02\x03\x04\x05\x06\x07\x08\t\n\x0b\x0c\x01\x02\x03\x04\x05\x06\x07\x08\t\n\x0b\x0c\0\0\0\0\x01\0\0\0\x02\0\0\0",
        b"listed primitives 1 in 500 out 660\n",
    ),
    // A target with another number of vertices: it isn't listed.
    (
        b"glTF\x02\0\0\0\xb4\x01\0\0|\x01\0\0JSON{\"asset\":{\"version\":\"2.0\"},\"buffers\":[{\"byteLength\":28}],\"bufferViews\":[{\"buffer\":0,\"byteLength\":12},{\"buffer\":0,\"byteOffset\":12,\"byteLength\":16}],\"accessors\":[{\"bufferView\":0,\"componentType\":5121,\"count\":3,\"type\":\"VEC4\"},{\"bufferView\":1,\"componentType\":5121,\"count\":4,\"type\":\"VEC4\"}],\"meshes\":[{\"primitives\":[{\"attributes\":{\"POSITION\":0},\"mode\":5,\"targets\":[{\"POSITION\":1}]}]}]} \x1c\0\0\0BIN\0\x01\x02\x03\x04\x05\x06\x07\x08\t\n\x0b\x0c\x01\x02\x03\x04\x05\x06\x07\x08\t\n\x0b\x0c\r\x0e\x0f\x10",
        b"glTF\x02\0\0\0\xc4\x01\0\0\x8c\x01\0\0JSON{\"asset\":{\"version\":\"2.0\"},\"buffers\":[{\"byteLength\":28}],\"bufferViews\":[{\"buffer\":0,\"byteLength\":12,\"byteOffset\":0},{\"buffer\":0,\"byteOffset\":12,\"byteLength\":16}],\"accessors\":[{\"bufferView\":0,\"componentType\":5121,\"count\":3,\"type\":\"VEC4\"},{\"bufferView\":1,\"componentType\":5121,\"count\":4,\"type\":\"VEC4\"}],\"meshes\":[{\"primitives\":[{\"attributes\":{\"POSITION\":0},\"mode\":5,\"targets\":[{\"POSITION\":1}]}]}]}  \x1c\0\0\0BIN\0\x01\x02\x03\x04\x05\x06\x07\x08\t\n\x0b\x0c\x01\x02\x03\x04\x05\x06\x07\x08\t\n\x0b\x0c\r\x0e\x0f\x10",
        b"listed primitives 0 in 436 out 452\n",
    ),
    // Attributes of two counts: they aren't listed.
    (
        b"glTF\x02\0\0\0\xa4\x01\0\0l\x01\0\0JSON{\"asset\":{\"version\":\"2.0\"},\"buffers\":[{\"byteLength\":28}],\"bufferViews\":[{\"buffer\":0,\"byteLength\":12},{\"buffer\":0,\"byteOffset\":12,\"byteLength\":16}],\"accessors\":[{\"bufferView\":0,\"componentType\":5121,\"count\":3,\"type\":\"VEC4\"},{\"bufferView\":1,\"componentType\":5121,\"count\":4,\"type\":\"VEC4\"}],\"meshes\":[{\"primitives\":[{\"attributes\":{\"POSITION\":0,\"NORMAL\":1},\"mode\":5}]}]} \x1c\0\0\0BIN\0\x01\x02\x03\x04\x05\x06\x07\x08\t\n\x0b\x0c\x01\x02\x03\x04\x05\x06\x07\x08\t\n\x0b\x0c\r\x0e\x0f\x10",
        b"glTF\x02\0\0\0\xb4\x01\0\0|\x01\0\0JSON{\"asset\":{\"version\":\"2.0\"},\"buffers\":[{\"byteLength\":28}],\"bufferViews\":[{\"buffer\":0,\"byteLength\":12,\"byteOffset\":0},{\"buffer\":0,\"byteOffset\":12,\"byteLength\":16}],\"accessors\":[{\"bufferView\":0,\"componentType\":5121,\"count\":3,\"type\":\"VEC4\"},{\"bufferView\":1,\"componentType\":5121,\"count\":4,\"type\":\"VEC4\"}],\"meshes\":[{\"primitives\":[{\"attributes\":{\"POSITION\":0,\"NORMAL\":1},\"mode\":5}]}]}  \x1c\0\0\0BIN\0\x01\x02\x03\x04\x05\x06\x07\x08\t\n\x0b\x0c\x01\x02\x03\x04\x05\x06\x07\x08\t\n\x0b\x0c\r\x0e\x0f\x10",
        b"listed primitives 0 in 420 out 436\n",
    ),
    // Two primitives of one strip: each gets a list of its own. One of another mode stays.
    (
        b"glTF\x02\0\0\0\x14\x02\0\0\xe4\x01\0\0JSON{\"asset\":{\"version\":\"2.0\"},\"buffers\":[{\"byteLength\":20}],\"bufferViews\":[{\"buffer\":0,\"byteLength\":16},{\"buffer\":0,\"byteOffset\":16,\"byteLength\":4}],\"accessors\":[{\"bufferView\":0,\"componentType\":5121,\"count\":4,\"type\":\"VEC4\"},{\"bufferView\":1,\"componentType\":5121,\"count\":4,\"type\":\"SCALAR\"}],\"meshes\":[{\"primitives\":[{\"attributes\":{\"POSITION\":0},\"indices\":1,\"mode\":5},{\"attributes\":{\"POSITION\":0},\"indices\":1,\"mode\":1}]},{\"primitives\":[{\"attributes\":{\"POSITION\":0},\"indices\":1,\"mode\":5}]}]}\x14\0\0\0BIN\0\x01\x02\x03\x04\x05\x06\x07\x08\t\n\x0b\x0c\r\x0e\x0f\x10\x03\x02\x01\0",
        b"glTF\x02\0\0\0L\x03\0\0\xec\x02\0\0JSON{\"asset\":{\"version\":\"2.0\"},\"buffers\":[{\"byteLength\":68}],\"bufferViews\":[{\"buffer\":0,\"byteLength\":16,\"byteOffset\":0},{\"buffer\":0,\"byteOffset\":16,\"byteLength\":4},{\"buffer\":0,\"byteOffset\":20,\"byteLength\":24,\"target\":34963},{\"buffer\":0,\"byteOffset\":44,\"byteLength\":24,\"target\":34963}],\"accessors\":[{\"bufferView\":0,\"componentType\":5121,\"count\":4,\"type\":\"VEC4\"},{\"bufferView\":1,\"componentType\":5121,\"count\":4,\"type\":\"SCALAR\"},{\"bufferView\":2,\"componentType\":5125,\"count\":6,\"type\":\"SCALAR\"},{\"bufferView\":3,\"componentType\":5125,\"count\":6,\"type\":\"SCALAR\"}],\"meshes\":[{\"primitives\":[{\"attributes\":{\"POSITION\":0},\"indices\":2,\"mode\":4},{\"attributes\":{\"POSITION\":0},\"indices\":1,\"mode\":1}]},{\"primitives\":[{\"attributes\":{\"POSITION\":0},\"indices\":3,\"mode\":4}]}]} D\0\0\0BIN\0\x01\x02\x03\x04\x05\x06\x07\x08\t\n\x0b\x0c\r\x0e\x0f\x10\x03\x02\x01\0\x03\0\0\0\x02\0\0\0\x01\0\0\0\x02\0\0\0\0\0\0\0\x01\0\0\0\x03\0\0\0\x02\0\0\0\x01\0\0\0\x02\0\0\0\0\0\0\0\x01\0\0\0",
        b"listed primitives 2 in 532 out 844\n",
    ),
    // A strip and a fan, and a list of triangles between them that stays.
    (
        b"glTF\x02\0\0\0l\x01\0\0D\x01\0\0JSON{\"asset\":{\"version\":\"2.0\"},\"buffers\":[{\"byteLength\":12}],\"bufferViews\":[{\"buffer\":0,\"byteLength\":12}],\"accessors\":[{\"bufferView\":0,\"componentType\":5121,\"count\":3,\"type\":\"VEC4\"}],\"meshes\":[{\"primitives\":[{\"attributes\":{\"POSITION\":0},\"mode\":5},{\"attributes\":{\"POSITION\":0},\"mode\":4},{\"attributes\":{\"POSITION\":0},\"mode\":6}]}]} \x0c\0\0\0BIN\0\x01\x02\x03\x04\x05\x06\x07\x08\t\n\x0b\x0c",
        b"glTF\x02\0\0\0\xa4\x02\0\0d\x02\0\0JSON{\"asset\":{\"version\":\"2.0\"},\"buffers\":[{\"byteLength\":36}],\"bufferViews\":[{\"buffer\":0,\"byteLength\":12,\"byteOffset\":0},{\"buffer\":0,\"byteOffset\":12,\"byteLength\":12,\"target\":34963},{\"buffer\":0,\"byteOffset\":24,\"byteLength\":12,\"target\":34963}],\"accessors\":[{\"bufferView\":0,\"componentType\":5121,\"count\":3,\"type\":\"VEC4\"},{\"bufferView\":1,\"componentType\":5125,\"count\":3,\"type\":\"SCALAR\"},{\"bufferView\":2,\"componentType\":5125,\"count\":3,\"type\":\"SCALAR\"}],\"meshes\":[{\"primitives\":[{\"attributes\":{\"POSITION\":0},\"mode\":4,\"indices\":1},{\"attributes\":{\"POSITION\":0},\"mode\":4},{\"attributes\":{\"POSITION\":0},\"mode\":4,\"indices\":2}]}]}  $\0\0\0BIN\0\x01\x02\x03\x04\x05\x06\x07\x08\t\n\x0b\x0c\0\0\0\0\x01\0\0\0\x02\0\0\0\x01\0\0\0\x02\0\0\0\0\0\0\0",
        b"listed primitives 2 in 364 out 676\n",
    ),
    // No buffer and no view: both lists are made.
    (
        b"glTF\x02\0\0\0\xb0\0\0\0\x9c\0\0\0JSON{\"asset\":{\"version\":\"2.0\"},\"accessors\":[{\"componentType\":5121,\"count\":4,\"type\":\"VEC4\"}],\"meshes\":[{\"primitives\":[{\"attributes\":{\"POSITION\":0},\"mode\":6}]}]} ",
        b"glTF\x02\0\0\0\x84\x01\0\0P\x01\0\0JSON{\"asset\":{\"version\":\"2.0\"},\"accessors\":[{\"componentType\":5121,\"count\":4,\"type\":\"VEC4\"},{\"bufferView\":0,\"componentType\":5125,\"count\":6,\"type\":\"SCALAR\"}],\"meshes\":[{\"primitives\":[{\"attributes\":{\"POSITION\":0},\"mode\":4,\"indices\":1}]}],\"bufferViews\":[{\"buffer\":0,\"byteOffset\":0,\"byteLength\":24,\"target\":34963}],\"buffers\":[{\"byteLength\":24}]}\x18\0\0\0BIN\0\x01\0\0\0\x02\0\0\0\0\0\0\0\x02\0\0\0\x03\0\0\0\0\0\0\0",
        b"listed primitives 1 in 176 out 388\n",
    ),
    // Points, a line loop and a line strip stay.
    (
        b"glTF\x02\0\0\0l\x01\0\0D\x01\0\0JSON{\"asset\":{\"version\":\"2.0\"},\"buffers\":[{\"byteLength\":12}],\"bufferViews\":[{\"buffer\":0,\"byteLength\":12}],\"accessors\":[{\"bufferView\":0,\"componentType\":5121,\"count\":3,\"type\":\"VEC4\"}],\"meshes\":[{\"primitives\":[{\"attributes\":{\"POSITION\":0},\"mode\":0},{\"attributes\":{\"POSITION\":0},\"mode\":2},{\"attributes\":{\"POSITION\":0},\"mode\":3}]}]} \x0c\0\0\0BIN\0\x01\x02\x03\x04\x05\x06\x07\x08\t\n\x0b\x0c",
        b"glTF\x02\0\0\0|\x01\0\0T\x01\0\0JSON{\"asset\":{\"version\":\"2.0\"},\"buffers\":[{\"byteLength\":12}],\"bufferViews\":[{\"buffer\":0,\"byteLength\":12,\"byteOffset\":0}],\"accessors\":[{\"bufferView\":0,\"componentType\":5121,\"count\":3,\"type\":\"VEC4\"}],\"meshes\":[{\"primitives\":[{\"attributes\":{\"POSITION\":0},\"mode\":0},{\"attributes\":{\"POSITION\":0},\"mode\":2},{\"attributes\":{\"POSITION\":0},\"mode\":3}]}]}  \x0c\0\0\0BIN\0\x01\x02\x03\x04\x05\x06\x07\x08\t\n\x0b\x0c",
        b"listed primitives 0 in 364 out 380\n",
    ),
    // No attributes: it isn't listed.
    (
        b"glTF\x02\0\0\0\x18\x01\0\0\xf8\0\0\0JSON{\"asset\":{\"version\":\"2.0\"},\"buffers\":[{\"byteLength\":3}],\"bufferViews\":[{\"buffer\":0,\"byteLength\":3}],\"accessors\":[{\"bufferView\":0,\"componentType\":5121,\"count\":3,\"type\":\"SCALAR\"}],\"meshes\":[{\"primitives\":[{\"attributes\":{},\"indices\":0,\"mode\":5}]}]}   \x04\0\0\0BIN\0\0\x01\x02\0",
        b"glTF\x02\0\0\0$\x01\0\0\x04\x01\0\0JSON{\"asset\":{\"version\":\"2.0\"},\"buffers\":[{\"byteLength\":3}],\"bufferViews\":[{\"buffer\":0,\"byteLength\":3,\"byteOffset\":0}],\"accessors\":[{\"bufferView\":0,\"componentType\":5121,\"count\":3,\"type\":\"SCALAR\"}],\"meshes\":[{\"primitives\":[{\"attributes\":{},\"indices\":0,\"mode\":5}]}]}\x04\0\0\0BIN\0\0\x01\x02\0",
        b"listed primitives 0 in 280 out 292\n",
    ),
    // Indices that are no whole numbers: they aren't listed.
    (
        b"glTF\x02\0\0\0\xa4\x01\0\0p\x01\0\0JSON{\"asset\":{\"version\":\"2.0\"},\"buffers\":[{\"byteLength\":24}],\"bufferViews\":[{\"buffer\":0,\"byteLength\":12},{\"buffer\":0,\"byteOffset\":12,\"byteLength\":12}],\"accessors\":[{\"bufferView\":0,\"componentType\":5121,\"count\":3,\"type\":\"VEC4\"},{\"bufferView\":1,\"componentType\":5126,\"count\":3,\"type\":\"SCALAR\"}],\"meshes\":[{\"primitives\":[{\"attributes\":{\"POSITION\":0},\"indices\":1,\"mode\":5}]}]}  \x18\0\0\0BIN\0\x01\x02\x03\x04\x05\x06\x07\x08\t\n\x0b\x0c\0\0\0\0\0\0\x80?\0\0\0@",
        b"glTF\x02\0\0\0\xb4\x01\0\0\x80\x01\0\0JSON{\"asset\":{\"version\":\"2.0\"},\"buffers\":[{\"byteLength\":24}],\"bufferViews\":[{\"buffer\":0,\"byteLength\":12,\"byteOffset\":0},{\"buffer\":0,\"byteOffset\":12,\"byteLength\":12}],\"accessors\":[{\"bufferView\":0,\"componentType\":5121,\"count\":3,\"type\":\"VEC4\"},{\"bufferView\":1,\"componentType\":5126,\"count\":3,\"type\":\"SCALAR\"}],\"meshes\":[{\"primitives\":[{\"attributes\":{\"POSITION\":0},\"indices\":1,\"mode\":5}]}]}   \x18\0\0\0BIN\0\x01\x02\x03\x04\x05\x06\x07\x08\t\n\x0b\x0c\0\0\0\0\0\0\x80?\0\0\0@",
        b"listed primitives 0 in 420 out 436\n",
    ),
    // An extension that isn't known: nothing is listed.
    (
        b"glTF\x02\0\0\0<\x01\0\0\x14\x01\0\0JSON{\"asset\":{\"version\":\"2.0\"},\"extensionsUsed\":[\"EXT_other\"],\"buffers\":[{\"byteLength\":12}],\"bufferViews\":[{\"buffer\":0,\"byteLength\":12}],\"accessors\":[{\"bufferView\":0,\"componentType\":5121,\"count\":3,\"type\":\"VEC4\"}],\"meshes\":[{\"primitives\":[{\"attributes\":{\"POSITION\":0},\"mode\":5}]}]}\x0c\0\0\0BIN\0\x01\x02\x03\x04\x05\x06\x07\x08\t\n\x0b\x0c",
        b"glTF\x02\0\0\0L\x01\0\0$\x01\0\0JSON{\"asset\":{\"version\":\"2.0\"},\"extensionsUsed\":[\"EXT_other\"],\"buffers\":[{\"byteLength\":12}],\"bufferViews\":[{\"buffer\":0,\"byteLength\":12,\"byteOffset\":0}],\"accessors\":[{\"bufferView\":0,\"componentType\":5121,\"count\":3,\"type\":\"VEC4\"}],\"meshes\":[{\"primitives\":[{\"attributes\":{\"POSITION\":0},\"mode\":5}]}]} \x0c\0\0\0BIN\0\x01\x02\x03\x04\x05\x06\x07\x08\t\n\x0b\x0c",
        b"listed primitives 0 in 316 out 332\n",
    ),
    // A view that is packed: it is unpacked, and its strip is listed.
    (
        b"glTF\x02\0\0\0t\x02\0\00\x02\0\0JSON{\"asset\":{\"version\":\"2.0\"},\"buffers\":[{\"byteLength\":37},{\"byteLength\":64,\"extensions\":{\"EXT_meshopt_compression\":{\"fallback\":true}}}],\"bufferViews\":[{\"buffer\":1,\"byteLength\":64,\"byteOffset\":0,\"extensions\":{\"EXT_meshopt_compression\":{\"buffer\":0,\"byteOffset\":0,\"byteLength\":37,\"byteStride\":4,\"count\":16,\"mode\":\"ATTRIBUTES\"}}}],\"accessors\":[{\"bufferView\":0,\"componentType\":5126,\"count\":4,\"type\":\"SCALAR\"}],\"meshes\":[{\"primitives\":[{\"attributes\":{\"_A\":0},\"mode\":5}]}],\"extensionsUsed\":[\"EXT_meshopt_compression\"],\"extensionsRequired\":[\"EXT_meshopt_compression\"]}  (\0\0\0BIN\0\xa0\0\0\0\0\0\0\0\0\0\0\0\0\0\0\0\0\0\0\0\0\0\0\0\0\0\0\0\0\0\0\0\0\0\0\0\0\0\0\0",
        b"glTF\x02\0\0\0\xfc\x01\0\0\x88\x01\0\0JSON{\"asset\":{\"version\":\"2.0\"},\"buffers\":[{\"byteLength\":88}],\"bufferViews\":[{\"buffer\":0,\"byteLength\":64,\"byteOffset\":0},{\"buffer\":0,\"byteOffset\":64,\"byteLength\":24,\"target\":34963}],\"accessors\":[{\"bufferView\":0,\"componentType\":5126,\"count\":4,\"type\":\"SCALAR\"},{\"bufferView\":1,\"componentType\":5125,\"count\":6,\"type\":\"SCALAR\"}],\"meshes\":[{\"primitives\":[{\"attributes\":{\"_A\":0},\"mode\":4,\"indices\":1}]}]}X\0\0\0BIN\0\0\0\0\0\0\0\0\0\0\0\0\0\0\0\0\0\0\0\0\0\0\0\0\0\0\0\0\0\0\0\0\0\0\0\0\0\0\0\0\0\0\0\0\0\0\0\0\0\0\0\0\0\0\0\0\0\0\0\0\0\0\0\0\0\0\0\0\0\x01\0\0\0\x02\0\0\0\x01\0\0\0\x03\0\0\0\x02\0\0\0",
        b"listed primitives 1 in 628 out 508\n",
    ),
    // A text.
    (
        b"{\"asset\":{\"version\":\"2.0\"},\"buffers\":[{\"byteLength\":16,\"uri\":\"data:application/octet-stream;base64,AQIDBAUGBwgJCgsMDQ4PEA==\"}],\"bufferViews\":[{\"buffer\":0,\"byteLength\":16}],\"accessors\":[{\"bufferView\":0,\"componentType\":5121,\"count\":4,\"type\":\"VEC4\"}],\"meshes\":[{\"primitives\":[{\"attributes\":{\"POSITION\":0},\"mode\":6}]}]}",
        b"glTF\x02\0\0\0\xd0\x01\0\0\x8c\x01\0\0JSON{\"asset\":{\"version\":\"2.0\"},\"buffers\":[{\"byteLength\":40}],\"bufferViews\":[{\"buffer\":0,\"byteLength\":16,\"byteOffset\":0},{\"buffer\":0,\"byteOffset\":16,\"byteLength\":24,\"target\":34963}],\"accessors\":[{\"bufferView\":0,\"componentType\":5121,\"count\":4,\"type\":\"VEC4\"},{\"bufferView\":1,\"componentType\":5125,\"count\":6,\"type\":\"SCALAR\"}],\"meshes\":[{\"primitives\":[{\"attributes\":{\"POSITION\":0},\"mode\":4,\"indices\":1}]}]}(\0\0\0BIN\0\x01\x02\x03\x04\x05\x06\x07\x08\t\n\x0b\x0c\r\x0e\x0f\x10\x01\0\0\0\x02\0\0\0\0\0\0\0\x02\0\0\0\x03\0\0\0\0\0\0\0",
        b"listed primitives 1 in 315 out 464\n",
    ),
];

#[test]
fn strips_and_fans_become_lists(rt: HostRuntime) -> Result<(), Fail> {
    for (file, out, line) in &LISTED {
        for most in [1, 4096] {
            assert!(rt; ends_with(rt.alloc(), "lists", file, most, Status::Done, out, line)?);
        }
    }
    Ok(())
}
