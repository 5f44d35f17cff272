// What `analyse` and `meshlets` answer for whole files.
use crate::files::ends_with;
use gp_app::Status;
use std::test::Fail;

// The sample of size 1, packed.
pub(crate) const SAMPLE: &[u8] =
    b"glTF\x02\0\0\0\xb4\x02\0\0l\x02\0\0JSON{\"asset\":{\"version\":\"2.0\",\"generator\":\"glbpack sample\"},\"extensionsUsed\":[\"KHR_mesh_quantization\"],\"extensionsRequired\":[\"KHR_mesh_quantization\"],\"scene\":0,\"scenes\":[{\"nodes\":[0]}],\"nodes\":[{\"mesh\":0}],\"meshes\":[{\"primitives\":[{\"attributes\":{\"POSITION\":0},\"indices\":1}]}],\"accessors\":[{\"bufferView\":0,\"componentType\":5123,\"count\":4,\"type\":\"VEC3\",\"min\":[0,0,0],\"max\":[1,1,0]},{\"bufferView\":1,\"componentType\":5123,\"count\":6,\"type\":\"SCALAR\"}],\"bufferViews\":[{\"buffer\":0,\"byteOffset\":0,\"byteLength\":32,\"byteStride\":8,\"target\":34962},{\"buffer\":0,\"byteOffset\":32,\"byteLength\":12,\"target\":34963}],\"buffers\":[{\"byteLength\":44}]},\0\0\0BIN\0\0\0\0\0\0\0\0\0\x01\0\0\0\0\0\0\0\x01\0\x01\0\0\0\0\0\0\0\x01\0\0\0\0\0\0\0\x01\0\x02\0\0\0\x02\0\x03\0";

// A file that is analysed: the input, the text of its analysis, and the text of its meshlets. The report stays empty.
const ANALYSED: [(&[u8], &[u8], &[u8]); 12] = [
    // The sample of size 1, packed.
    (
        SAMPLE,
        b"mesh 0 primitive 0 vertices 4 triangles 2 misses 4 lines 1\ngroups 1 movable 1 views 2 packed 0\n",
        b"mesh 0 primitive 0 meshlets 1\nvertices 0 1 2 3\ncorners 0 1 2 0 2 3\n",
    ),
    // The same before it is packed.
    (
        b"glTF\x02\0\0\0\x14\x02\0\0\xc8\x01\0\0JSON{\"asset\":{\"version\":\"2.0\",\"generator\":\"glbpack sample\"},\"extensionsUsed\":[\"KHR_mesh_quantization\"],\"extensionsRequired\":[\"KHR_mesh_quantization\"],\"scene\":0,\"scenes\":[{\"nodes\":[0]}],\"nodes\":[{\"mesh\":0}],\"meshes\":[{\"primitives\":[{\"attributes\":{\"POSITION\":0}}]}],\"accessors\":[{\"bufferView\":0,\"componentType\":5123,\"count\":6,\"type\":\"VEC3\",\"min\":[0,0,0],\"max\":[1,1,0]}],\"bufferViews\":[{\"buffer\":0,\"byteLength\":48,\"byteStride\":8}],\"buffers\":[{\"byteLength\":48}]}  0\0\0\0BIN\0\0\0\0\0\0\0\0\0\x01\0\0\0\0\0\0\0\x01\0\x01\0\0\0\0\0\0\0\0\0\0\0\0\0\x01\0\x01\0\0\0\0\0\0\0\x01\0\0\0\0\0",
        b"mesh 0 primitive 0 vertices 6 triangles 2 misses 6 lines 1\ngroups 1 movable 1 views 1 packed 0\n",
        b"mesh 0 primitive 0 meshlets 1\nvertices 0 1 2 3 4 5\ncorners 0 1 2 3 4 5\n",
    ),
    // The smallest container.
    (
        b"glTF\x02\0\0\00\0\0\0\x1c\0\0\0JSON{\"asset\":{\"version\":\"2.0\"}} ",
        b"groups 0 movable 0 views 0 packed 0\n",
        b"",
    ),
    // A text.
    (
        b"{\"asset\":{\"version\":\"2.0\"}}",
        b"groups 0 movable 0 views 0 packed 0\n",
        b"",
    ),
    // A view of zeros in a stream.
    (
        b"glTF\x02\0\0\08\x02\0\0\xf4\x01\0\0JSON{\"asset\":{\"version\":\"2.0\"},\"buffers\":[{\"byteLength\":37},{\"byteLength\":64,\"extensions\":{\"EXT_meshopt_compression\":{\"fallback\":true}}}],\"bufferViews\":[{\"buffer\":1,\"byteLength\":64,\"byteOffset\":0,\"extensions\":{\"EXT_meshopt_compression\":{\"buffer\":0,\"byteOffset\":0,\"byteLength\":37,\"byteStride\":4,\"count\":16,\"mode\":\"ATTRIBUTES\"}}}],\"accessors\":[{\"bufferView\":0,\"componentType\":5126,\"count\":16,\"type\":\"SCALAR\"}],\"extensionsUsed\":[\"EXT_meshopt_compression\"],\"extensionsRequired\":[\"EXT_meshopt_compression\"]}  (\0\0\0BIN\0\xa0\0\0\0\0\0\0\0\0\0\0\0\0\0\0\0\0\0\0\0\0\0\0\0\0\0\0\0\0\0\0\0\0\0\0\0\0\0\0\0",
        b"groups 0 movable 0 views 1 packed 1\n",
        b"",
    ),
    // Two groups, one of which may move.
    (
        b"glTF\x02\0\0\0<\x03\0\0H\x02\0\0JSON{\"buffers\":[{\"byteLength\":216}],\"bufferViews\":[{\"buffer\":0,\"byteLength\":216,\"byteStride\":24}],\"accessors\":[{\"bufferView\":0,\"byteOffset\":0,\"componentType\":5126,\"count\":6,\"type\":\"VEC3\"},{\"bufferView\":0,\"byteOffset\":12,\"componentType\":5126,\"count\":6,\"type\":\"VEC3\"},{\"bufferView\":0,\"byteOffset\":144,\"componentType\":5126,\"count\":3,\"type\":\"VEC3\"},{\"bufferView\":0,\"byteOffset\":156,\"componentType\":5126,\"count\":3,\"type\":\"VEC3\"}],\"meshes\":[{\"primitives\":[{\"attributes\":{\"POSITION\":0,\"NORMAL\":1}},{\"attributes\":{\"POSITION\":2,\"NORMAL\":3}},{\"attributes\":{\"POSITION\":2,\"NORMAL\":3},\"mode\":1}]}]}   \xd8\0\0\0BIN\0\0\0\0\0\x01\0\0\0\x02\0\0\0\x03\0\0\0\x04\0\0\0\x05\0\0\0\x06\0\0\0\x07\0\0\0\x08\0\0\0\t\0\0\0\n\0\0\0\x0b\0\0\0\x0c\0\0\0\r\0\0\0\x0e\0\0\0\x0f\0\0\0\x10\0\0\0\x11\0\0\0\x12\0\0\0\x13\0\0\0\x14\0\0\0\x15\0\0\0\x16\0\0\0\x17\0\0\0\x18\0\0\0\x19\0\0\0\x1a\0\0\0\x1b\0\0\0\x1c\0\0\0\x1d\0\0\0\x1e\0\0\0\x1f\0\0\0 \0\0\0!\0\0\0\"\0\0\0#\0\0\0$\0\0\0%\0\0\0&\0\0\0'\0\0\0(\0\0\0)\0\0\0*\0\0\0+\0\0\0,\0\0\0-\0\0\0.\0\0\0/\0\0\00\0\0\01\0\0\02\0\0\03\0\0\04\0\0\05\0\0\0",
        b"mesh 0 primitive 0 vertices 6 triangles 2 misses 6 lines 2\nmesh 0 primitive 1 vertices 3 triangles 1 misses 3 lines 1\ngroups 2 movable 1 views 1 packed 0\n",
        b"mesh 0 primitive 0 meshlets 1\nvertices 0 1 2 3 4 5\ncorners 0 1 2 3 4 5\nmesh 0 primitive 1 meshlets 1\nvertices 0 1 2\ncorners 0 1 2\n",
    ),
    // Two primitives that share an accessor.
    (
        b"glTF\x02\0\0\0\xc8\x01\0\0|\x01\0\0JSON{\"asset\":{\"version\":\"2.0\"},\"buffers\":[{\"byteLength\":48}],\"bufferViews\":[{\"buffer\":0,\"byteLength\":24},{\"buffer\":0,\"byteOffset\":24,\"byteLength\":24}],\"accessors\":[{\"bufferView\":0,\"componentType\":5121,\"count\":6,\"type\":\"VEC4\"},{\"bufferView\":1,\"componentType\":5121,\"count\":6,\"type\":\"VEC4\"}],\"meshes\":[{\"primitives\":[{\"attributes\":{\"POSITION\":0,\"_N\":1}},{\"attributes\":{\"POSITION\":0}}]}]}0\0\0\0BIN\0\x01\x01\x01\x01\x02\x02\x02\x02\x03\x03\x03\x03\x01\x01\x01\x01\x03\x03\x03\x03\x04\x04\x04\x04\n\x0b\x0c\r\n\x0b\x0c\r\n\x0b\x0c\r\x0e\x0f\0\x01\n\x0b\x0c\r\n\x0b\x0c\r",
        b"mesh 0 primitive 0 vertices 6 triangles 2 misses 6 lines 1\nmesh 0 primitive 1 vertices 6 triangles 2 misses 6 lines 1\ngroups 1 movable 1 views 2 packed 0\n",
        b"mesh 0 primitive 0 meshlets 1\nvertices 0 1 2 3 4 5\ncorners 0 1 2 3 4 5\nmesh 0 primitive 1 meshlets 1\nvertices 0 1 2 3 4 5\ncorners 0 1 2 3 4 5\n",
    ),
    // A sparse accessor.
    (
        b"glTF\x02\0\0\0\x8c\x01\0\0h\x01\0\0JSON{\"asset\":{\"version\":\"2.0\"},\"buffers\":[{\"byteLength\":5}],\"bufferViews\":[{\"buffer\":0,\"byteLength\":1},{\"buffer\":0,\"byteOffset\":1,\"byteLength\":4}],\"accessors\":[{\"componentType\":5121,\"count\":3,\"type\":\"VEC4\",\"sparse\":{\"count\":1,\"indices\":{\"bufferView\":0,\"componentType\":5121},\"values\":{\"bufferView\":1}}}],\"meshes\":[{\"primitives\":[{\"attributes\":{\"POSITION\":0}}]}]}   \x08\0\0\0BIN\0\x01\x01\x02\x03\x04\0\0\0",
        b"mesh 0 primitive 0 vertices 3 triangles 1 misses 3 lines 1\ngroups 1 movable 1 views 2 packed 0\n",
        b"mesh 0 primitive 0 meshlets 1\nvertices 0 1 2\ncorners 0 1 2\n",
    ),
    // A sparse accessor whose index is past its end.
    (
        b"glTF\x02\0\0\0\x8c\x01\0\0h\x01\0\0JSON{\"asset\":{\"version\":\"2.0\"},\"buffers\":[{\"byteLength\":5}],\"bufferViews\":[{\"buffer\":0,\"byteLength\":1},{\"buffer\":0,\"byteOffset\":1,\"byteLength\":4}],\"accessors\":[{\"componentType\":5121,\"count\":3,\"type\":\"VEC4\",\"sparse\":{\"count\":1,\"indices\":{\"bufferView\":0,\"componentType\":5121},\"values\":{\"bufferView\":1}}}],\"meshes\":[{\"primitives\":[{\"attributes\":{\"POSITION\":0}}]}]}   \x08\0\0\0BIN\0\x03\x01\x02\x03\x04\0\0\0",
        b"mesh 0 primitive 0 vertices 3 triangles 1 misses 3 lines 1\ngroups 1 movable 0 views 2 packed 0\n",
        b"mesh 0 primitive 0 meshlets 1\nvertices 0 1 2\ncorners 0 1 2\n",
    ),
    // A cube with a picture.
    (
        b"glTF\x02\0\0\0T\x06\0\0\xe4\x02\0\0JSON{\"asset\":{\"version\":\"2.0\"},\"meshes\":[{\"primitives\":[{\"attributes\":{\"POSITION\":0,\"NORMAL\":1,\"TEXCOORD_0\":2},\"indices\":3}]}],\"accessors\":[{\"bufferView\":0,\"componentType\":5126,\"count\":24,\"type\":\"VEC3\",\"max\":[1.0,1,1],\"min\":[-1.0,-1,-1]},{\"bufferView\":1,\"componentType\":5126,\"count\":24,\"type\":\"VEC3\"},{\"bufferView\":2,\"componentType\":5126,\"count\":24,\"type\":\"VEC2\"},{\"bufferView\":3,\"componentType\":5123,\"count\":36,\"type\":\"SCALAR\"}],\"images\":[{\"bufferView\":4,\"mimeType\":\"image/png\"}],\"bufferViews\":[{\"buffer\":0,\"byteLength\":288},{\"buffer\":0,\"byteOffset\":288,\"byteLength\":288},{\"buffer\":0,\"byteOffset\":576,\"byteLength\":192},{\"buffer\":0,\"byteOffset\":768,\"byteLength\":72},{\"buffer\":0,\"byteOffset\":840,\"byteLength\":10}],\"buffers\":[{\"byteLength\":850}]}T\x03\0\0BIN\0\0\0\0\0\x01\0\0\0\x02\0\0\0\x03\0\0\0\x04\0\0\0\x05\0\0\0\x06\0\0\0\x07\0\0\0\x08\0\0\0\t\0\0\0\n\0\0\0\x0b\0\0\0\x0c\0\0\0\r\0\0\0\x0e\0\0\0\x0f\0\0\0\x10\0\0\0\x11\0\0\0\x12\0\0\0\x13\0\0\0\x14\0\0\0\x15\0\0\0\x16\0\0\0\x17\0\0\0\x18\0\0\0\x19\0\0\0\x1a\0\0\0\x1b\0\0\0\x1c\0\0\0\x1d\0\0\0\x1e\0\0\0\x1f\0\0\0 \0\0\0!\0\0\0\"\0\0\0#\0\0\0$\0\0\0%\0\0\0&\0\0\0'\0\0\0(\0\0\0)\0\0\0*\0\0\0+\0\0\0,\0\0\0-\0\0\0.\0\0\0/\0\0\00\0\0\01\0\0\02\0\0\03\0\0\04\0\0\05\0\0\06\0\0\07\0\0\08\0\0\09\0\0\0:\0\0\0;\0\0\0<\0\0\0=\0\0\0>\0\0\0?\0\0\0@\0\0\0A\0\0\0B\0\0\0C\0\0\0D\0\0\0E\0\0\0F\0\0\0G\0\0\0d\0\0\0e\0\0\0f\0\0\0g\0\0\0h\0\0\0i\0\0\0j\0\0\0k\0\0\0l\0\0\0m\0\0\0n\0\0\0o\0\0\0p\0\0\0q\0\0\0r\0\0\0s\0\0\0t\0\0\0u\0\0\0v\0\0\0w\0\0\0x\0\0\0y\0\0\0z\0\0\0{\0\0\0|\0\0\0}\0\0\0~\0\0\0\x7f\0\0\0\x80\0\0\0\x81\0\0\0\x82\0\0\0\x83\0\0\0\x84\0\0\0\x85\0\0\0\x86\0\0\0\x87\0\0\0\x88\0\0\0\x89\0\0\0\x8a\0\0\0\x8b\0\0\0\x8c\0\0\0\x8d\0\0\0\x8e\0\0\0\x8f\0\0\0\x90\0\0\0\x91\0\0\0\x92\0\0\0\x93\0\0\0\x94\0\0\0\x95\0\0\0\x96\0\0\0\x97\0\0\0\x98\0\0\0\x99\0\0\0\x9a\0\0\0\x9b\0\0\0\x9c\0\0\0\x9d\0\0\0\x9e\0\0\0\x9f\0\0\0\xa0\0\0\0\xa1\0\0\0\xa2\0\0\0\xa3\0\0\0\xa4\0\0\0\xa5\0\0\0\xa6\0\0\0\xa7\0\0\0\xa8\0\0\0\xa9\0\0\0\xaa\0\0\0\xab\0\0\0\xc8\0\0\0\xc9\0\0\0\xca\0\0\0\xcb\0\0\0\xcc\0\0\0\xcd\0\0\0\xce\0\0\0\xcf\0\0\0\xd0\0\0\0\xd1\0\0\0\xd2\0\0\0\xd3\0\0\0\xd4\0\0\0\xd5\0\0\0\xd6\0\0\0\xd7\0\0\0\xd8\0\0\0\xd9\0\0\0\xda\0\0\0\xdb\0\0\0\xdc\0\0\0\xdd\0\0\0\xde\0\0\0\xdf\0\0\0\xe0\0\0\0\xe1\0\0\0\xe2\0\0\0\xe3\0\0\0\xe4\0\0\0\xe5\0\0\0\xe6\0\0\0\xe7\0\0\0\xe8\0\0\0\xe9\0\0\0\xea\0\0\0\xeb\0\0\0\xec\0\0\0\xed\0\0\0\xee\0\0\0\xef\0\0\0\xf0\0\0\0\xf1\0\0\0\xf2\0\0\0\xf3\0\0\0\xf4\0\0\0\xf5\0\0\0\xf6\0\0\0\xf7\0\0\0\0\0\x01\0\x02\0\0\0\x02\0\x03\0\x04\0\x05\0\x06\0\x04\0\x06\0\x07\0\x08\0\t\0\n\0\x08\0\n\0\x0b\0\x0c\0\r\0\x0e\0\x0c\0\x0e\0\x0f\0\x10\0\x11\0\x12\0\x10\0\x12\0\x13\0\x14\0\x15\0\x16\0\x14\0\x16\0\x17\0\x01\x02\x03\x04\x05\x06\x07\x08\t\n\0\0",
        b"mesh 0 primitive 0 vertices 24 triangles 12 misses 24 lines 5\ngroups 1 movable 1 views 5 packed 0\n",
        b"mesh 0 primitive 0 meshlets 1\nvertices 0 1 2 3 4 5 6 7 8 9 10 11 12 13 14 15 16 17 18 19 20 21 22 23\ncorners 0 1 2 0 2 3 4 5 6 4 6 7 8 9 10 8 10 11 12 13 14 12 14 15 16 17 18 16 18 19 20 21 22 20 22 23\n",
    ),
    // The same packed: streams of attributes and of triangles.
    (
        b"glTF\x02\0\0\0p\x07\0\0\x1c\x06\0\0JSON{\"asset\":{\"version\":\"2.0\"},\"meshes\":[{\"primitives\":[{\"attributes\":{\"POSITION\":0,\"NORMAL\":1,\"TEXCOORD_0\":2},\"indices\":3}]}],\"accessors\":[{\"bufferView\":1,\"componentType\":5126,\"count\":24,\"type\":\"VEC3\",\"max\":[1.0,1,1],\"min\":[-1.0,-1,-1]},{\"bufferView\":2,\"componentType\":5126,\"count\":24,\"type\":\"VEC3\"},{\"bufferView\":3,\"componentType\":5126,\"count\":24,\"type\":\"VEC2\"},{\"bufferView\":4,\"componentType\":5123,\"count\":36,\"type\":\"SCALAR\"}],\"images\":[{\"bufferView\":0,\"mimeType\":\"image/png\"}],\"bufferViews\":[{\"buffer\":0,\"byteOffset\":0,\"byteLength\":10},{\"buffer\":1,\"byteOffset\":0,\"byteLength\":288,\"byteStride\":12,\"target\":34962,\"extensions\":{\"EXT_meshopt_compression\":{\"buffer\":0,\"byteOffset\":12,\"byteLength\":93,\"byteStride\":12,\"count\":24,\"mode\":\"ATTRIBUTES\"}}},{\"buffer\":1,\"byteOffset\":288,\"byteLength\":288,\"byteStride\":12,\"target\":34962,\"extensions\":{\"EXT_meshopt_compression\":{\"buffer\":0,\"byteOffset\":108,\"byteLength\":93,\"byteStride\":12,\"count\":24,\"mode\":\"ATTRIBUTES\"}}},{\"buffer\":1,\"byteOffset\":576,\"byteLength\":192,\"byteStride\":8,\"target\":34962,\"extensions\":{\"EXT_meshopt_compression\":{\"buffer\":0,\"byteOffset\":204,\"byteLength\":73,\"byteStride\":8,\"count\":24,\"mode\":\"ATTRIBUTES\"}}},{\"buffer\":1,\"byteOffset\":768,\"byteLength\":72,\"target\":34963,\"extensions\":{\"EXT_meshopt_compression\":{\"buffer\":0,\"byteOffset\":280,\"byteLength\":29,\"byteStride\":2,\"count\":36,\"mode\":\"TRIANGLES\"}}}],\"buffers\":[{\"byteLength\":309},{\"byteLength\":840,\"extensions\":{\"EXT_meshopt_compression\":{\"fallback\":true}}}],\"extensionsUsed\":[\"EXT_meshopt_compression\"],\"extensionsRequired\":[\"EXT_meshopt_compression\"]}8\x01\0\0BIN\0\x01\x02\x03\x04\x05\x06\x07\x08\t\n\0\0\xa0\n\x06fffffffffff\0\0\0\0\0\0\0\n\x06fffffffffff\0\0\0\0\0\0\0\n\x06fffffffffff\0\0\0\0\0\0\0\0\0\0\0\0\0\0\0\0\0\0\0\0\0\0\0\0\0\0\0\0\0\0\0\x01\0\0\0\x02\0\0\0\0\0\0\xa0\n\x06fffffffffff\0\0\0\0\0\0\0\n\x06fffffffffff\0\0\0\0\0\0\0\n\x06fffffffffff\0\0\0\0\0\0\0\0\0\0\0\0\0\0\0\0\0\0\0\0\0\0\0\0\0\0\0d\0\0\0e\0\0\0f\0\0\0\0\0\0\xa0\n\x04DDDDDDDDDDD\0\0\0\0\0\0\0\n\x04DDDDDDDDDDD\0\0\0\0\0\0\0\0\0\0\0\0\0\0\0\0\0\0\0\0\0\0\0\0\0\0\0\0\0\0\0\xc8\0\0\0\xc9\0\0\0\0\0\0\xe1\xf0\0\xf0\0\xf0\0\xf0\0\xf0\0\xf0\0\0v\x87Vgx\xa9\x86e\x89h\x98\x01i\0\0\0\0\0",
        b"mesh 0 primitive 0 vertices 24 triangles 12 misses 24 lines 5\ngroups 1 movable 1 views 5 packed 4\n",
        b"mesh 0 primitive 0 meshlets 1\nvertices 0 1 2 3 4 5 6 7 8 9 10 11 12 13 14 15 16 17 18 19 20 21 22 23\ncorners 0 1 2 0 2 3 4 5 6 4 6 7 8 9 10 8 10 11 12 13 14 12 14 15 16 17 18 16 18 19 20 21 22 20 22 23\n",
    ),
    // Strips have no line, and three primitives have no plain list.
    (
        b"glTF\x02\0\0\0H\x02\0\0\x14\x02\0\0JSON{\"buffers\":[{\"byteLength\":24}],\"bufferViews\":[{\"buffer\":0,\"byteLength\":12},{\"buffer\":0,\"byteOffset\":12,\"byteLength\":12}],\"accessors\":[{\"bufferView\":0,\"componentType\":5121,\"count\":3,\"type\":\"VEC3\"},{\"bufferView\":1,\"componentType\":5125,\"count\":3,\"type\":\"SCALAR\"},{\"componentType\":5126,\"count\":4,\"type\":\"VEC3\"}],\"meshes\":[{\"primitives\":[{\"attributes\":{\"A\":0},\"indices\":1,\"mode\":5},{\"attributes\":{\"A\":0},\"indices\":1}]},{\"primitives\":[]},{\"primitives\":[{\"attributes\":{\"A\":2}},{\"attributes\":{}},{\"attributes\":{},\"indices\":1,\"mode\":4}]}]}  \x18\0\0\0BIN\0\0\0\0\0\0\0\0\0\0\0\0\0\0\0\0\0\x01\0\0\0\x02\0\0\0",
        b"mesh 0 primitive 1 vertices 3 triangles 1 misses 3 lines 1\nmesh 2 primitive 0 not a plain list\nmesh 2 primitive 1 not a plain list\nmesh 2 primitive 2 not a plain list\ngroups 4 movable 0 views 2 packed 0\n",
        b"mesh 0 primitive 1 meshlets 1\nvertices 0 1 2\ncorners 0 1 2\nmesh 2 primitive 0 not a plain list\nmesh 2 primitive 1 not a plain list\nmesh 2 primitive 2 not a plain list\n",
    ),
];

// A file that is refused: the input and the line of the report.
const REFUSED: [(&[u8], &[u8]); 8] = [
    // No bytes.
    (b"", b"refused 2 TooShort\n"),
    // Another version.
    (
        b"glTF\x01\0\0\00\0\0\0\x1c\0\0\0JSON{\"asset\":{\"version\":\"2.0\"}} ",
        b"refused 4 Version\n",
    ),
    // A missing value.
    (b"{\"a\":}", b"refused 10 NotJson\n"),
    // A view of no buffer.
    (
        b"{\"bufferViews\":[{\"buffer\":0,\"byteLength\":4}]}",
        b"refused 12 Field bufferViews 0\n",
    ),
    // The Khronos form of the extension.
    (
        b"{\"extensionsUsed\":[\"KHR_meshopt_compression\"]}",
        b"refused 14 Foreign\n",
    ),
    // A filter.
    (
        b"glTF\x02\0\0\0L\x02\0\0\x08\x02\0\0JSON{\"asset\":{\"version\":\"2.0\"},\"buffers\":[{\"byteLength\":37},{\"byteLength\":64,\"extensions\":{\"EXT_meshopt_compression\":{\"fallback\":true}}}],\"bufferViews\":[{\"buffer\":1,\"byteLength\":64,\"byteOffset\":0,\"extensions\":{\"EXT_meshopt_compression\":{\"buffer\":0,\"byteOffset\":0,\"byteLength\":37,\"byteStride\":4,\"count\":16,\"mode\":\"ATTRIBUTES\",\"filter\":\"OCTAHEDRAL\"}}}],\"accessors\":[{\"bufferView\":0,\"componentType\":5126,\"count\":16,\"type\":\"SCALAR\"}],\"extensionsUsed\":[\"EXT_meshopt_compression\"],\"extensionsRequired\":[\"EXT_meshopt_compression\"]}(\0\0\0BIN\0\xa0\0\0\0\0\0\0\0\0\0\0\0\0\0\0\0\0\0\0\0\0\0\0\0\0\0\0\0\0\0\0\0\0\0\0\0\0\0\0\0",
        b"refused 20 Filter 0\n",
    ),
    // A stream without its last byte.
    (
        b"glTF\x02\0\0\08\x02\0\0\xf4\x01\0\0JSON{\"asset\":{\"version\":\"2.0\"},\"buffers\":[{\"byteLength\":37},{\"byteLength\":64,\"extensions\":{\"EXT_meshopt_compression\":{\"fallback\":true}}}],\"bufferViews\":[{\"buffer\":1,\"byteLength\":64,\"byteOffset\":0,\"extensions\":{\"EXT_meshopt_compression\":{\"buffer\":0,\"byteOffset\":0,\"byteLength\":36,\"byteStride\":4,\"count\":16,\"mode\":\"ATTRIBUTES\"}}}],\"accessors\":[{\"bufferView\":0,\"componentType\":5126,\"count\":16,\"type\":\"SCALAR\"}],\"extensionsUsed\":[\"EXT_meshopt_compression\"],\"extensionsRequired\":[\"EXT_meshopt_compression\"]}  (\0\0\0BIN\0\xa0\0\0\0\0\0\0\0\0\0\0\0\0\0\0\0\0\0\0\0\0\0\0\0\0\0\0\0\0\0\0\0\0\0\0\0\0\0\0\0",
        b"refused 23 Stream 0 Tail 31\n",
    ),
    // Streams with a fault: the lowest is told.
    (
        b"glTF\x02\0\0\0\xcc\x01\0\0\x88\x01\0\0JSON{\"buffers\":[{\"byteLength\":37}],\"bufferViews\":[{\"buffer\":0,\"byteLength\":4},{\"buffer\":0,\"byteLength\":4,\"extensions\":{\"EXT_meshopt_compression\":{\"buffer\":0,\"byteOffset\":1,\"byteLength\":36,\"byteStride\":4,\"count\":1,\"mode\":\"ATTRIBUTES\"}}},{\"buffer\":0,\"byteLength\":4,\"extensions\":{\"EXT_meshopt_compression\":{\"buffer\":0,\"byteOffset\":0,\"byteLength\":36,\"byteStride\":4,\"count\":1,\"mode\":\"ATTRIBUTES\"}}}]} (\0\0\0BIN\0\xa0\0\0\0\0\0\0\0\0\0\0\0\0\0\0\0\0\0\0\0\0\0\0\0\0\0\0\0\0\0\0\0\0\x01\x02\x03\x04\0\0\0",
        b"refused 23 Stream 1 Header\n",
    ),
];

#[test]
fn files_are_analysed(rt: HostRuntime) -> Result<(), Fail> {
    for (file, text, _) in &ANALYSED {
        for most in [1, 4096] {
            assert!(rt; ends_with(rt.alloc(), "analyse", file, most, Status::Done, text, b"")?);
        }
    }
    Ok(())
}

#[test]
fn meshlets_are_told(rt: HostRuntime) -> Result<(), Fail> {
    for (file, _, text) in &ANALYSED {
        for most in [1, 4096] {
            assert!(rt; ends_with(rt.alloc(), "meshlets", file, most, Status::Done, text, b"")?);
        }
    }
    Ok(())
}

#[test]
fn faulty_files_are_not_analysed(rt: HostRuntime) -> Result<(), Fail> {
    for (file, line) in REFUSED {
        for command in ["analyse", "meshlets"] {
            assert!(rt; ends_with(rt.alloc(), command, file, 7, Status::Refused, b"", line)?);
        }
    }
    Ok(())
}
