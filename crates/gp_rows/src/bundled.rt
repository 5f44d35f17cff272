// What `bundle` and `pair` answer over folders in memory.
use crate::words::{USAGE, words_of};
use gp_app::{Status, run_in};
use gp_folder::{FileList, MemoryFolder};
use gp_host::{MemorySink, MemorySource, NoMemory, Source};
use std::alloc::Global;
use std::test::Fail;

// A file of a folder: its name and its bytes.
type Named<'a> = (&'a str, &'a [u8]);

// At most three files. One that stands there twice is one file.
type Files<'a> = [Named<'a>; 3];

// A file of its own, that no command speaks of.
const OTHER: Named<'static> = ("other.bin", b"other");

// A text with a view of the four bytes of `m.bin`, and one with a view of those of `n.bin`.
const TEXT: &[u8] =
    b"{\"asset\":{\"version\":\"2.0\"},\"buffers\":[{\"byteLength\":4,\"uri\":\"m.bin\"}],\"bufferViews\":[{\"buffer\":0,\"byteLength\":4}]}";

const SECOND: &[u8] =
    b"{\"asset\":{\"version\":\"2.0\"},\"buffers\":[{\"byteLength\":4,\"uri\":\"m.bin\"},{\"byteLength\":4,\"uri\":\"n.bin\"}],\"bufferViews\":[{\"buffer\":1,\"byteLength\":4}]}";

const FOUR: &[u8] = b"\x01\x02\x03\x04";

// What both are packed to: a GLB, and as a pair with the stem `out` a text beside the four bytes.
const GLB: &[u8] =
    b"glTF\x02\0\0\0\x94\0\0\0t\0\0\0JSON{\"asset\":{\"version\":\"2.0\"},\"buffers\":[{\"byteLength\":4}],\"bufferViews\":[{\"buffer\":0,\"byteLength\":4,\"byteOffset\":0}]} \x04\0\0\0BIN\0\x01\x02\x03\x04";

const PAIRED: &[u8] =
    b"{\"asset\":{\"version\":\"2.0\"},\"buffers\":[{\"byteLength\":4,\"uri\":\"out.bin\"}],\"bufferViews\":[{\"buffer\":0,\"byteLength\":4,\"byteOffset\":0}]}";

// A file that is packed with its buffers: its name, its folder, the GLB and the line of `bundle`, the text, the bytes of its
// buffer, if it has one, and the line of `pair` with the stem `out`.
struct Bundled {
    file: &'static str,
    files: Files<'static>,
    glb: &'static [u8],
    line: &'static [u8],
    text: &'static [u8],
    bin: Option<&'static [u8]>,
    pair_line: &'static [u8],
}

const BUNDLED: [Bundled; 15] = [
    // A text and its buffer.
    Bundled {
        file: "m.gltf",
        files: [("m.gltf", TEXT), ("m.bin", FOUR), OTHER],
        glb: GLB,
        line: b"packed views 0 of 1 in 118 out 148\n",
        text: PAIRED,
        bin: Some(FOUR),
        pair_line: b"packed views 0 of 1 in 118 out 135\n",
    },
    // A text and two buffers, of which the second has a view.
    Bundled {
        file: "m.gltf",
        files: [("m.gltf", SECOND), ("m.bin", b"\0\0\0\0"), ("n.bin", FOUR)],
        glb: GLB,
        line: b"packed views 0 of 1 in 153 out 148\n",
        text: PAIRED,
        bin: Some(FOUR),
        pair_line: b"packed views 0 of 1 in 153 out 135\n",
    },
    // One file is two buffers, and is counted twice.
    Bundled {
        file: "m.gltf",
        files: [
            (
                "m.gltf",
                b"{\"asset\":{\"version\":\"2.0\"},\"buffers\":[{\"byteLength\":4,\"uri\":\"m.bin\"},{\"byteLength\":4,\"uri\":\"m.bin\"}],\"bufferViews\":[{\"buffer\":0,\"byteLength\":4},{\"buffer\":1,\"byteLength\":3}]}",
            ),
            ("m.bin", FOUR),
            OTHER,
        ],
        glb: b"glTF\x02\0\0\0\xc4\0\0\0\xa0\0\0\0JSON{\"asset\":{\"version\":\"2.0\"},\"buffers\":[{\"byteLength\":7}],\"bufferViews\":[{\"buffer\":0,\"byteLength\":4,\"byteOffset\":0},{\"buffer\":0,\"byteLength\":3,\"byteOffset\":4}]}  \x08\0\0\0BIN\0\x01\x02\x03\x04\x01\x02\x03\0",
        line: b"packed views 0 of 2 in 181 out 196\n",
        text: b"{\"asset\":{\"version\":\"2.0\"},\"buffers\":[{\"byteLength\":7,\"uri\":\"out.bin\"}],\"bufferViews\":[{\"buffer\":0,\"byteLength\":4,\"byteOffset\":0},{\"buffer\":0,\"byteLength\":3,\"byteOffset\":4}]}",
        bin: Some(b"\x01\x02\x03\x04\x01\x02\x03\0"),
        pair_line: b"packed views 0 of 2 in 181 out 182\n",
    },
    // A file that is longer than its buffer.
    Bundled {
        file: "m.gltf",
        files: [
            ("m.gltf", TEXT),
            ("m.bin", b"\x01\x02\x03\x04\x05\x06\x07"),
            OTHER,
        ],
        glb: GLB,
        line: b"packed views 0 of 1 in 121 out 148\n",
        text: PAIRED,
        bin: Some(FOUR),
        pair_line: b"packed views 0 of 1 in 121 out 135\n",
    },
    // A file that is shorter than its buffer by no more than the chunk is padded.
    Bundled {
        file: "m.gltf",
        files: [("m.gltf", TEXT), ("m.bin", b"\x01\x02\x03"), OTHER],
        glb: b"glTF\x02\0\0\0\x94\0\0\0t\0\0\0JSON{\"asset\":{\"version\":\"2.0\"},\"buffers\":[{\"byteLength\":4}],\"bufferViews\":[{\"buffer\":0,\"byteLength\":4,\"byteOffset\":0}]} \x04\0\0\0BIN\0\x01\x02\x03\0",
        line: b"packed views 0 of 1 in 117 out 148\n",
        text: PAIRED,
        bin: Some(b"\x01\x02\x03\0"),
        pair_line: b"packed views 0 of 1 in 117 out 135\n",
    },
    // A picture in a file of its own stays there.
    Bundled {
        file: "m.gltf",
        files: [
            (
                "m.gltf",
                b"{\"asset\":{\"version\":\"2.0\"},\"buffers\":[{\"byteLength\":4,\"uri\":\"m.bin\"}],\"bufferViews\":[{\"buffer\":0,\"byteLength\":4}],\"images\":[{\"uri\":\"i.png\"}]}",
            ),
            ("m.bin", FOUR),
            ("i.png", b"\x89PNG"),
        ],
        glb: b"glTF\x02\0\0\0\xb0\0\0\0\x90\0\0\0JSON{\"asset\":{\"version\":\"2.0\"},\"buffers\":[{\"byteLength\":4}],\"bufferViews\":[{\"buffer\":0,\"byteLength\":4,\"byteOffset\":0}],\"images\":[{\"uri\":\"i.png\"}]}  \x04\0\0\0BIN\0\x01\x02\x03\x04",
        line: b"packed views 0 of 1 in 145 out 176\n",
        text: b"{\"asset\":{\"version\":\"2.0\"},\"buffers\":[{\"byteLength\":4,\"uri\":\"out.bin\"}],\"bufferViews\":[{\"buffer\":0,\"byteLength\":4,\"byteOffset\":0}],\"images\":[{\"uri\":\"i.png\"}]}",
        bin: Some(FOUR),
        pair_line: b"packed views 0 of 1 in 145 out 162\n",
    },
    // A buffer that no view needs may have any name.
    Bundled {
        file: "m.gltf",
        files: [
            (
                "m.gltf",
                b"{\"asset\":{\"version\":\"2.0\"},\"buffers\":[{\"byteLength\":4,\"uri\":\"m.bin\"},{\"byteLength\":9,\"uri\":\"../n.bin\"}],\"bufferViews\":[{\"buffer\":0,\"byteLength\":4}]}",
            ),
            ("m.bin", FOUR),
            OTHER,
        ],
        glb: GLB,
        line: b"packed views 0 of 1 in 152 out 148\n",
        text: PAIRED,
        bin: Some(FOUR),
        pair_line: b"packed views 0 of 1 in 152 out 135\n",
    },
    // The first buffer is a data URI.
    Bundled {
        file: "m.gltf",
        files: [
            (
                "m.gltf",
                b"{\"asset\":{\"version\":\"2.0\"},\"buffers\":[{\"byteLength\":2,\"uri\":\"data:application/gltf-buffer;base64,CQg=\"},{\"byteLength\":4,\"uri\":\"n.bin\"}],\"bufferViews\":[{\"buffer\":0,\"byteLength\":2},{\"buffer\":1,\"byteLength\":4}]}",
            ),
            ("n.bin", FOUR),
            OTHER,
        ],
        glb: b"glTF\x02\0\0\0\xc4\0\0\0\xa0\0\0\0JSON{\"asset\":{\"version\":\"2.0\"},\"buffers\":[{\"byteLength\":8}],\"bufferViews\":[{\"buffer\":0,\"byteLength\":2,\"byteOffset\":0},{\"buffer\":0,\"byteLength\":4,\"byteOffset\":4}]}  \x08\0\0\0BIN\0\t\x08\0\0\x01\x02\x03\x04",
        line: b"packed views 0 of 2 in 212 out 196\n",
        text: b"{\"asset\":{\"version\":\"2.0\"},\"buffers\":[{\"byteLength\":8,\"uri\":\"out.bin\"}],\"bufferViews\":[{\"buffer\":0,\"byteLength\":2,\"byteOffset\":0},{\"buffer\":0,\"byteLength\":4,\"byteOffset\":4}]}",
        bin: Some(b"\t\x08\0\0\x01\x02\x03\x04"),
        pair_line: b"packed views 0 of 2 in 212 out 182\n",
    },
    // A GLB whose second buffer is a file.
    Bundled {
        file: "m.glb",
        files: [
            (
                "m.glb",
                b"glTF\x02\0\0\0\xc0\0\0\0\xa0\0\0\0JSON{\"asset\":{\"version\":\"2.0\"},\"buffers\":[{\"byteLength\":4},{\"byteLength\":4,\"uri\":\"n.bin\"}],\"bufferViews\":[{\"buffer\":0,\"byteLength\":4},{\"buffer\":1,\"byteLength\":4}]} \x04\0\0\0BIN\0\t\x08\x07\x06",
            ),
            ("n.bin", FOUR),
            OTHER,
        ],
        glb: b"glTF\x02\0\0\0\xc4\0\0\0\xa0\0\0\0JSON{\"asset\":{\"version\":\"2.0\"},\"buffers\":[{\"byteLength\":8}],\"bufferViews\":[{\"buffer\":0,\"byteLength\":4,\"byteOffset\":0},{\"buffer\":0,\"byteLength\":4,\"byteOffset\":4}]}  \x08\0\0\0BIN\0\t\x08\x07\x06\x01\x02\x03\x04",
        line: b"packed views 0 of 2 in 196 out 196\n",
        text: b"{\"asset\":{\"version\":\"2.0\"},\"buffers\":[{\"byteLength\":8,\"uri\":\"out.bin\"}],\"bufferViews\":[{\"buffer\":0,\"byteLength\":4,\"byteOffset\":0},{\"buffer\":0,\"byteLength\":4,\"byteOffset\":4}]}",
        bin: Some(b"\t\x08\x07\x06\x01\x02\x03\x04"),
        pair_line: b"packed views 0 of 2 in 196 out 182\n",
    },
    // A GLB whose first buffer is a file.
    Bundled {
        file: "m.glb",
        files: [
            (
                "m.glb",
                b"glTF\x02\0\0\0\x94\0\0\0t\0\0\0JSON{\"asset\":{\"version\":\"2.0\"},\"buffers\":[{\"byteLength\":4,\"uri\":\"m.bin\"}],\"bufferViews\":[{\"buffer\":0,\"byteLength\":4}]}  \x04\0\0\0BIN\0\t\x08\x07\x06",
            ),
            ("m.bin", FOUR),
            OTHER,
        ],
        glb: GLB,
        line: b"packed views 0 of 1 in 152 out 148\n",
        text: PAIRED,
        bin: Some(FOUR),
        pair_line: b"packed views 0 of 1 in 152 out 135\n",
    },
    // A GLB with another chunk, which has no place in a pair.
    Bundled {
        file: "m.glb",
        files: [
            (
                "m.glb",
                b"glTF\x02\0\0\0\x90\0\0\0d\0\0\0JSON{\"asset\":{\"version\":\"2.0\"},\"buffers\":[{\"byteLength\":4}],\"bufferViews\":[{\"buffer\":0,\"byteLength\":4}]}\x04\0\0\0BIN\0\x01\x02\x03\x04\x04\0\0\0abcdwxyz",
            ),
            OTHER,
            OTHER,
        ],
        glb: b"glTF\x02\0\0\0\xa0\0\0\0t\0\0\0JSON{\"asset\":{\"version\":\"2.0\"},\"buffers\":[{\"byteLength\":4}],\"bufferViews\":[{\"buffer\":0,\"byteLength\":4,\"byteOffset\":0}]} \x04\0\0\0BIN\0\x01\x02\x03\x04\x04\0\0\0abcdwxyz",
        line: b"packed views 0 of 1 in 144 out 160\n",
        text: PAIRED,
        bin: Some(FOUR),
        pair_line: b"packed views 0 of 1 in 144 out 135\n",
    },
    // A text without buffers: there is no BIN chunk to be put.
    Bundled {
        file: "m.gltf",
        files: [
            ("m.gltf", b"{ \"asset\":{\"version\":\"2.0\"} }"),
            OTHER,
            OTHER,
        ],
        glb: b"glTF\x02\0\0\00\0\0\0\x1c\0\0\0JSON{\"asset\":{\"version\":\"2.0\"}} ",
        line: b"packed views 0 of 0 in 29 out 48\n",
        text: b"{\"asset\":{\"version\":\"2.0\"}}",
        bin: None,
        pair_line: b"packed views 0 of 0 in 29 out 27\n",
    },
    // A folder of the folder: its buffers are beside the text.
    Bundled {
        file: "d/e/m.gltf",
        files: [
            ("d/e/m.gltf", TEXT),
            ("d/e/m.bin", FOUR),
            ("m.bin", b"\t\t\t\t"),
        ],
        glb: GLB,
        line: b"packed views 0 of 1 in 118 out 148\n",
        text: PAIRED,
        bin: Some(FOUR),
        pair_line: b"packed views 0 of 1 in 118 out 135\n",
    },
    // Two triangles: their corners are merged, and the file has two views.
    Bundled {
        file: "m.gltf",
        files: [
            (
                "m.gltf",
                b"{\"asset\":{\"version\":\"2.0\"},\"buffers\":[{\"byteLength\":72,\"uri\":\"m.bin\"}],\"bufferViews\":[{\"buffer\":0,\"byteLength\":72}],\"accessors\":[{\"bufferView\":0,\"componentType\":5126,\"count\":6,\"type\":\"VEC3\",\"min\":[0,0,0],\"max\":[1,1,0]}],\"meshes\":[{\"primitives\":[{\"attributes\":{\"POSITION\":0}}]}]}",
            ),
            (
                "m.bin",
                b"\0\0\0\0\0\0\0\0\0\0\0\0\0\0\x80?\0\0\0\0\0\0\0\0\0\0\x80?\0\0\x80?\0\0\0\0\0\0\0\0\0\0\0\0\0\0\0\0\0\0\x80?\0\0\x80?\0\0\0\0\0\0\0\0\0\0\x80?\0\0\0\0",
            ),
            OTHER,
        ],
        glb: b"glTF\x02\0\0\0\x18\x02\0\0\xc0\x01\0\0JSON{\"asset\":{\"version\":\"2.0\"},\"buffers\":[{\"byteLength\":60}],\"bufferViews\":[{\"buffer\":0,\"byteOffset\":0,\"byteLength\":48,\"byteStride\":12,\"target\":34962},{\"buffer\":0,\"byteOffset\":48,\"byteLength\":12,\"target\":34963}],\"accessors\":[{\"bufferView\":0,\"componentType\":5126,\"count\":4,\"type\":\"VEC3\",\"min\":[0,0,0],\"max\":[1,1,0]},{\"bufferView\":1,\"componentType\":5123,\"count\":6,\"type\":\"SCALAR\"}],\"meshes\":[{\"primitives\":[{\"attributes\":{\"POSITION\":0},\"indices\":1}]}]}  <\0\0\0BIN\0\0\0\0\0\0\0\0\0\0\0\0\0\0\0\x80?\0\0\0\0\0\0\0\0\0\0\x80?\0\0\x80?\0\0\0\0\0\0\0\0\0\0\x80?\0\0\0\0\0\0\x01\0\x02\0\0\0\x02\0\x03\0",
        line: b"packed views 0 of 2 in 350 out 536\n",
        text: b"{\"asset\":{\"version\":\"2.0\"},\"buffers\":[{\"byteLength\":60,\"uri\":\"out.bin\"}],\"bufferViews\":[{\"buffer\":0,\"byteOffset\":0,\"byteLength\":48,\"byteStride\":12,\"target\":34962},{\"buffer\":0,\"byteOffset\":48,\"byteLength\":12,\"target\":34963}],\"accessors\":[{\"bufferView\":0,\"componentType\":5126,\"count\":4,\"type\":\"VEC3\",\"min\":[0,0,0],\"max\":[1,1,0]},{\"bufferView\":1,\"componentType\":5123,\"count\":6,\"type\":\"SCALAR\"}],\"meshes\":[{\"primitives\":[{\"attributes\":{\"POSITION\":0},\"indices\":1}]}]}",
        bin: Some(
            b"\0\0\0\0\0\0\0\0\0\0\0\0\0\0\x80?\0\0\0\0\0\0\0\0\0\0\x80?\0\0\x80?\0\0\0\0\0\0\0\0\0\0\x80?\0\0\0\0\0\0\x01\0\x02\0\0\0\x02\0\x03\0",
        ),
        pair_line: b"packed views 0 of 2 in 350 out 522\n",
    },
    // Sixteen equal values: a stream.
    Bundled {
        file: "m.gltf",
        files: [
            (
                "m.gltf",
                b"{\"asset\":{\"version\":\"2.0\"},\"buffers\":[{\"byteLength\":64,\"uri\":\"m.bin\"}],\"bufferViews\":[{\"buffer\":0,\"byteLength\":64}],\"accessors\":[{\"bufferView\":0,\"componentType\":5126,\"count\":16,\"type\":\"SCALAR\"}]}",
            ),
            (
                "m.bin",
                b"\0\0\0\0\0\0\0\0\0\0\0\0\0\0\0\0\0\0\0\0\0\0\0\0\0\0\0\0\0\0\0\0\0\0\0\0\0\0\0\0\0\0\0\0\0\0\0\0\0\0\0\0\0\0\0\0\0\0\0\0\0\0\0\0",
            ),
            OTHER,
        ],
        glb: b"glTF\x02\0\0\08\x02\0\0\xf4\x01\0\0JSON{\"asset\":{\"version\":\"2.0\"},\"buffers\":[{\"byteLength\":37},{\"byteLength\":64,\"extensions\":{\"EXT_meshopt_compression\":{\"fallback\":true}}}],\"bufferViews\":[{\"buffer\":1,\"byteLength\":64,\"byteOffset\":0,\"extensions\":{\"EXT_meshopt_compression\":{\"buffer\":0,\"byteOffset\":0,\"byteLength\":37,\"byteStride\":4,\"count\":16,\"mode\":\"ATTRIBUTES\"}}}],\"accessors\":[{\"bufferView\":0,\"componentType\":5126,\"count\":16,\"type\":\"SCALAR\"}],\"extensionsUsed\":[\"EXT_meshopt_compression\"],\"extensionsRequired\":[\"EXT_meshopt_compression\"]}  (\0\0\0BIN\0\xa0\0\0\0\0\0\0\0\0\0\0\0\0\0\0\0\0\0\0\0\0\0\0\0\0\0\0\0\0\0\0\0\0\0\0\0\0\0\0\0",
        line: b"packed views 1 of 1 in 259 out 568\n",
        text: b"{\"asset\":{\"version\":\"2.0\"},\"buffers\":[{\"byteLength\":37,\"uri\":\"out.bin\"},{\"byteLength\":64,\"extensions\":{\"EXT_meshopt_compression\":{\"fallback\":true}}}],\"bufferViews\":[{\"buffer\":1,\"byteLength\":64,\"byteOffset\":0,\"extensions\":{\"EXT_meshopt_compression\":{\"buffer\":0,\"byteOffset\":0,\"byteLength\":37,\"byteStride\":4,\"count\":16,\"mode\":\"ATTRIBUTES\"}}}],\"accessors\":[{\"bufferView\":0,\"componentType\":5126,\"count\":16,\"type\":\"SCALAR\"}],\"extensionsUsed\":[\"EXT_meshopt_compression\"],\"extensionsRequired\":[\"EXT_meshopt_compression\"]}",
        bin: Some(
            b"\xa0\0\0\0\0\0\0\0\0\0\0\0\0\0\0\0\0\0\0\0\0\0\0\0\0\0\0\0\0\0\0\0\0\0\0\0\0\0\0\0",
        ),
        pair_line: b"packed views 1 of 1 in 259 out 554\n",
    },
];

// A file that is refused: its name, its folder and the line of the report.
const REFUSED: [(&str, Files<'static>, &[u8]); 16] = [
    // No file of the buffer.
    (
        "m.gltf",
        [("m.gltf", TEXT), OTHER, OTHER],
        b"missing buffer 0\n",
    ),
    // No file.
    ("m.gltf", [("m.bin", FOUR), OTHER, OTHER], b"missing file\n"),
    // No file of the second buffer.
    (
        "m.gltf",
        [("m.gltf", SECOND), ("m.bin", FOUR), OTHER],
        b"missing buffer 1\n",
    ),
    // No file of a buffer that no view needs.
    (
        "m.gltf",
        [("m.gltf", SECOND), ("n.bin", FOUR), OTHER],
        b"missing buffer 0\n",
    ),
    // A name of another folder.
    (
        "m.gltf",
        [
            (
                "m.gltf",
                b"{\"asset\":{\"version\":\"2.0\"},\"buffers\":[{\"byteLength\":4,\"uri\":\"../m.bin\"}],\"bufferViews\":[{\"buffer\":0,\"byteLength\":4}]}",
            ),
            OTHER,
            OTHER,
        ],
        b"refused 16 Scheme 0\n",
    ),
    // A missing file is told before a name that isn't safe.
    (
        "m.gltf",
        [
            (
                "m.gltf",
                b"{\"asset\":{\"version\":\"2.0\"},\"buffers\":[{\"byteLength\":4,\"uri\":\"../m.bin\"},{\"byteLength\":4,\"uri\":\"n.bin\"}],\"bufferViews\":[{\"buffer\":0,\"byteLength\":4}]}",
            ),
            OTHER,
            OTHER,
        ],
        b"missing buffer 1\n",
    ),
    // A missing file is told before a fault of the asset.
    (
        "m.gltf",
        [
            (
                "m.gltf",
                b"{\"asset\":{\"version\":\"2.0\"},\"buffers\":[{\"byteLength\":4,\"uri\":\"m.bin\"}],\"bufferViews\":[{\"buffer\":9,\"byteLength\":4}]}",
            ),
            OTHER,
            OTHER,
        ],
        b"missing buffer 0\n",
    ),
    // The fault of the asset, once the file is there.
    (
        "m.gltf",
        [
            (
                "m.gltf",
                b"{\"asset\":{\"version\":\"2.0\"},\"buffers\":[{\"byteLength\":4,\"uri\":\"m.bin\"}],\"bufferViews\":[{\"buffer\":9,\"byteLength\":4}]}",
            ),
            ("m.bin", FOUR),
            OTHER,
        ],
        b"refused 12 Field bufferViews 0\n",
    ),
    // A fault of the text is told before a missing file.
    (
        "m.gltf",
        [
            (
                "m.gltf",
                b"{\"asset\":{\"version\":\"2.0\"},\"buffers\":[{\"byteLength\":4,\"uri\":\"m.bin\"}],\"bufferViews\":[{\"buffer\":0,\"byteLength\":4}]",
            ),
            OTHER,
            OTHER,
        ],
        b"refused 10 NotJson\n",
    ),
    // Equal keys.
    (
        "m.gltf",
        [
            (
                "m.gltf",
                b"{\"asset\":{\"version\":\"2.0\"},\"buffers\":[{\"byteLength\":4,\"uri\":\"m.bin\"}],\"bufferViews\":[{\"buffer\":0,\"byteLength\":4}],\"buffers\":[]}",
            ),
            OTHER,
            OTHER,
        ],
        b"refused 11 DuplicateKey\n",
    ),
    // No container.
    (
        "m.glb",
        [("m.glb", b"glTF"), OTHER, OTHER],
        b"refused 2 TooShort\n",
    ),
    // An empty file.
    (
        "m.gltf",
        [("m.gltf", b""), OTHER, OTHER],
        b"refused 2 TooShort\n",
    ),
    // A file that is shorter than its buffer.
    (
        "m.gltf",
        [
            (
                "m.gltf",
                b"{\"asset\":{\"version\":\"2.0\"},\"buffers\":[{\"byteLength\":5,\"uri\":\"m.bin\"}],\"bufferViews\":[{\"buffer\":0,\"byteLength\":4}]}",
            ),
            ("m.bin", FOUR),
            OTHER,
        ],
        b"refused 15 Buffer 0\n",
    ),
    // A buffer of an empty file.
    (
        "m.gltf",
        [("m.gltf", TEXT), ("m.bin", b""), OTHER],
        b"refused 15 Buffer 0\n",
    ),
    // A second buffer that is too short.
    (
        "m.gltf",
        [("m.gltf", SECOND), ("m.bin", FOUR), ("n.bin", b"\x01")],
        b"refused 15 Buffer 1\n",
    ),
    // A file that is packed already.
    (
        "m.gltf",
        [
            (
                "m.gltf",
                b"{\"asset\":{\"version\":\"2.0\"},\"buffers\":[{\"byteLength\":4,\"uri\":\"m.bin\"}],\"bufferViews\":[{\"buffer\":0,\"byteLength\":4}],\"extensionsUsed\":[\"EXT_meshopt_compression\"]}",
            ),
            ("m.bin", FOUR),
            OTHER,
        ],
        b"refused 13 AlreadyPacked\n",
    ),
];

// A text with another name of its buffer, in two pieces.
const FRONT: &str = r#"{"asset":{"version":"2.0"},"buffers":[{"byteLength":4,"uri":""#;

const BACK: &str = r#""}],"bufferViews":[{"buffer":0,"byteLength":4}]}"#;

// The URI of a buffer of `d/m.gltf`, the name of its file, and the line of the report.
const NAMES: [(&str, &str, &[u8]); 14] = [
    ("m.bin", "d/m.bin", b"packed views 0 of 1 in 118 out 148\n"),
    (
        "%6D.bin",
        "d/m.bin",
        b"packed views 0 of 1 in 120 out 148\n",
    ),
    (
        "%6d%2Ebin",
        "d/m.bin",
        b"packed views 0 of 1 in 122 out 148\n",
    ),
    (
        "a%20b.bin",
        "d/a b.bin",
        b"packed views 0 of 1 in 122 out 148\n",
    ),
    (
        "a b.bin",
        "d/a b.bin",
        b"packed views 0 of 1 in 120 out 148\n",
    ),
    (
        "./m.bin",
        "d/./m.bin",
        b"packed views 0 of 1 in 120 out 148\n",
    ),
    (
        "n/m.bin",
        "d/n/m.bin",
        b"packed views 0 of 1 in 120 out 148\n",
    ),
    (
        "n%2Fm.bin",
        "d/n/m.bin",
        b"packed views 0 of 1 in 122 out 148\n",
    ),
    (
        "..n/m..",
        "d/..n/m..",
        b"packed views 0 of 1 in 120 out 148\n",
    ),
    (
        "%252E%252E/m.bin",
        "d/%2E%2E/m.bin",
        b"packed views 0 of 1 in 129 out 148\n",
    ),
    (
        "%zz%4.bin",
        "d/%zz%4.bin",
        b"packed views 0 of 1 in 122 out 148\n",
    ),
    (
        "m.bin?a=1#b",
        "d/m.bin?a=1#b",
        b"packed views 0 of 1 in 124 out 148\n",
    ),
    ("Data", "d/Data", b"packed views 0 of 1 in 117 out 148\n"),
    ("~", "d/~", b"packed views 0 of 1 in 114 out 148\n"),
];

// URIs of a buffer that name no file that may be taken: the text's own fault is told.
const UNSAFE: [&str; 21] = [
    // An empty name.
    "",
    // A folder above.
    "../m.bin",
    "n/../m.bin",
    "n/..",
    "..",
    "%2e%2E/m.bin",
    // A path from the root.
    "/m.bin",
    "%2Fm.bin",
    // A drive.
    "C:/m.bin",
    "C%3A/m.bin",
    // Other schemes.
    "http://localhost/m.bin",
    "file:m.bin",
    "Data:,",
    // A backslash, spelled in JSON and by an escape.
    r"n\\m.bin",
    "n%5Cm.bin",
    // Bytes that aren't printable ASCII: control bytes and UTF-8 by escapes, and letters of another alphabet.
    "%00",
    "m%0A.bin",
    "%7F",
    "%C3%A9.bin",
    r"\u00e9.bin",
    // A data URI of another kind.
    "data:,AQIDBA==",
];

// How a run ended, and what it left.
#[derive(Drop)]
struct Ran {
    status: Status,
    folder: MemoryFolder,
    input: MemorySource,
    output: MemorySink,
    report: MemorySink,
}

// A folder of these files. The calls of these numbers fail.
fn folder_of(alloc: Global, files: &Files<'_>, failing: &[u32]) -> Result<MemoryFolder, NoMemory> {
    let [(one, first), (two, second), (three, third)] = *files;
    let mut list = FileList::new(alloc);
    list.set(alloc, one, first)?;
    list.set(alloc, two, second)?;
    list.set(alloc, three, third)?;
    Ok(MemoryFolder::new(alloc, list, Vec::from_slice(alloc, failing)?))
}

// Does what the words ask for over a folder of these files.
fn run_over(alloc: Global, words: &[&str], files: &Files<'_>) -> Result<Ran, NoMemory> {
    run_failing(alloc, words, files, &[], &[], &[])
}

// The same, in pieces of at most 16 bytes, and with an input of two bytes. The calls of these numbers fail.
fn run_failing(
    alloc: Global,
    words: &[&str],
    files: &Files<'_>,
    folder_fails: &[u32],
    output_fails: &[u32],
    report_fails: &[u32],
) -> Result<Ran, NoMemory> {
    let words = words_of(alloc, words)?;
    let mut folder = folder_of(alloc, files, folder_fails)?;
    let mut input = MemorySource::new(Vec::from_slice(alloc, b"{}")?, 16, Vec::new(alloc));
    let mut output = MemorySink::new(alloc, 2048, 16, Vec::from_slice(alloc, output_fails)?)?;
    let mut report = MemorySink::new(alloc, 96, 16, Vec::from_slice(alloc, report_fails)?)?;
    let status = run_in(
        alloc,
        &words,
        &mut folder,
        &mut input,
        &mut output,
        &mut report,
    );
    Ok(Ran {
        status,
        folder,
        input,
        output,
        report,
    })
}

// Whether the run ended so, with this output and this report, and read nothing of its input.
fn ended(ran: &mut Ran, status: Status, output: &[u8], report: &[u8]) -> bool {
    let mut left = [0; 4];
    ran.status == status
        && ran.output.held() == output
        && ran.report.held() == report
        && ran.input.read(&mut left) == Ok(2)
}

// Whether a folder has each of these files.
fn has_all(folder: &MemoryFolder, files: &Files<'_>) -> bool {
    for (name, bytes) in files {
        if folder.files().get(name) != Some(*bytes) {
            return false;
        }
    }
    true
}

// Whether a folder that had these files has them still, and no others.
fn is_kept(folder: &MemoryFolder, files: &Files<'_>, alloc: Global) -> Result<bool, NoMemory> {
    let before = folder_of(alloc, files, &[])?;
    Ok(has_all(folder, files) && count(folder) == count(&before))
}

// How many files a folder has.
fn count(folder: &MemoryFolder) -> usize {
    folder.files().as_slice().len()
}

#[test]
fn files_are_bundled_with_their_buffers(rt: HostRuntime) -> Result<(), Fail> {
    let alloc = rt.alloc();
    for row in &BUNDLED {
        let mut ran = run_over(alloc, &["bundle", row.file], &row.files)?;
        assert!(rt;
            ended(&mut ran, Status::Done, row.glb, row.line),
            "{}",
            row.file
        );
        assert!(rt; is_kept(&ran.folder, &row.files, alloc)?);
    }
    Ok(())
}

#[test]
fn pairs_are_put(rt: HostRuntime) -> Result<(), Fail> {
    let alloc = rt.alloc();
    for row in &BUNDLED {
        let mut ran = run_over(alloc, &["pair", row.file, "out"], &row.files)?;
        assert!(rt;
            ended(&mut ran, Status::Done, b"", row.pair_line),
            "{}",
            row.file
        );
        assert!(rt; has_all(&ran.folder, &row.files));
        assert!(rt; ran.folder.files().get("out.gltf") == Some(row.text));
        assert!(rt; ran.folder.files().get("out.bin") == row.bin);
        let before = folder_of(alloc, &row.files, &[])?;
        let put = if row.bin.is_some() { 2 } else { 1 };
        let more = count(&ran.folder).checked_sub(count(&before));
        assert_eq!(rt; more, Some(put));
    }
    Ok(())
}

#[test]
fn files_are_refused(rt: HostRuntime) -> Result<(), Fail> {
    let alloc = rt.alloc();
    for (file, files, line) in REFUSED {
        let commands: [&[&str]; 2] = [&["bundle", file], &["pair", file, "out"]];
        for words in commands {
            let mut ran = run_over(alloc, words, &files)?;
            assert!(rt; ended(&mut ran, Status::Refused, b"", line));
            assert!(rt; is_kept(&ran.folder, &files, alloc)?);
        }
    }
    Ok(())
}

// A text whose buffer has this URI.
fn text_of_uri(alloc: Global, uri: &str) -> Result<String, NoMemory> {
    let mut text = String::from_str(alloc, FRONT)?;
    text.push_str(uri)?;
    text.push_str(BACK)?;
    Ok(text)
}

#[test]
fn names_are_decoded_once(rt: HostRuntime) -> Result<(), Fail> {
    let alloc = rt.alloc();
    for (uri, name, line) in NAMES {
        let text = text_of_uri(alloc, uri)?;
        let files = [("d/m.gltf", text.as_bytes()), (name, FOUR), OTHER];
        let mut ran = run_over(alloc, &["bundle", "d/m.gltf"], &files)?;
        assert!(rt; ended(&mut ran, Status::Done, GLB, line), "{uri}");
    }
    Ok(())
}

#[test]
fn names_that_lead_elsewhere_are_not_taken(rt: HostRuntime) -> Result<(), Fail> {
    let alloc = rt.alloc();
    for uri in UNSAFE {
        let text = text_of_uri(alloc, uri)?;
        let files = [("m.gltf", text.as_bytes()), ("m.bin", FOUR), (uri, FOUR)];
        let mut ran = run_over(alloc, &["bundle", "m.gltf"], &files)?;
        assert!(rt;
            ended(&mut ran, Status::Refused, b"", b"refused 16 Scheme 0\n"),
            "{uri}"
        );
    }
    Ok(())
}

const HELD: Files<'static> = [("m.gltf", TEXT), ("m.bin", FOUR), OTHER];

#[test]
fn a_folder_that_fails_ends_the_run(rt: HostRuntime) -> Result<(), Fail> {
    let alloc = rt.alloc();
    for call in 0..2 {
        let commands: [&[&str]; 2] = [&["bundle", "m.gltf"], &["pair", "m.gltf", "out"]];
        for words in commands {
            let mut ran = run_failing(alloc, words, &HELD, &[call], &[], &[])?;
            assert!(rt; ended(&mut ran, Status::Outside, b"", b"folder failed\n"));
            assert!(rt; is_kept(&ran.folder, &HELD, alloc)?);
        }
    }
    Ok(())
}

#[test]
fn a_call_that_is_never_made_never_fails(rt: HostRuntime) -> Result<(), Fail> {
    let alloc = rt.alloc();
    let mut bundled = run_failing(alloc, &["bundle", "m.gltf"], &HELD, &[2], &[], &[])?;
    assert!(rt;
        ended(
            &mut bundled,
            Status::Done,
            GLB,
            b"packed views 0 of 1 in 118 out 148\n"
        )
    );
    let mut paired = run_failing(alloc, &["pair", "m.gltf", "out"], &HELD, &[4], &[], &[])?;
    assert!(rt;
        ended(
            &mut paired,
            Status::Done,
            b"",
            b"packed views 0 of 1 in 118 out 135\n"
        )
    );
    Ok(())
}

#[test]
fn a_put_that_fails_leaves_the_one_before(rt: HostRuntime) -> Result<(), Fail> {
    let alloc = rt.alloc();
    for (call, bin) in [(2, None), (3, Some(FOUR))] {
        let mut ran = run_failing(alloc, &["pair", "m.gltf", "out"], &HELD, &[call], &[], &[])?;
        assert!(rt; ended(&mut ran, Status::Outside, b"", b"folder failed\n"));
        assert!(rt; has_all(&ran.folder, &HELD));
        assert!(rt; ran.folder.files().get("out.bin") == bin);
        assert!(rt; ran.folder.files().get("out.gltf") == None);
    }
    Ok(())
}

#[test]
fn an_output_that_fails_holds_a_front(rt: HostRuntime) -> Result<(), Fail> {
    let alloc = rt.alloc();
    let mut bundled = run_failing(alloc, &["bundle", "m.gltf"], &HELD, &[], &[2], &[])?;
    assert!(rt;
        ended(
            &mut bundled,
            Status::Outside,
            &GLB[..32],
            b"output failed\n"
        )
    );
    assert!(rt; is_kept(&bundled.folder, &HELD, alloc)?);
    let mut paired = run_failing(alloc, &["pair", "m.gltf", "out"], &HELD, &[], &[2], &[])?;
    assert!(rt;
        ended(
            &mut paired,
            Status::Done,
            b"",
            b"packed views 0 of 1 in 118 out 135\n"
        )
    );
    Ok(())
}

#[test]
fn a_report_that_fails_leaves_all_that_was_written(rt: HostRuntime) -> Result<(), Fail> {
    let alloc = rt.alloc();
    let told = b"packed views 0 oreport failed\n";
    let mut bundled = run_failing(alloc, &["bundle", "m.gltf"], &HELD, &[], &[], &[1])?;
    assert!(rt; ended(&mut bundled, Status::Outside, GLB, told));
    let mut paired = run_failing(alloc, &["pair", "m.gltf", "out"], &HELD, &[], &[], &[1])?;
    assert!(rt; ended(&mut paired, Status::Outside, b"", told));
    assert!(rt; paired.folder.files().get("out.bin") == Some(FOUR));
    assert!(rt; paired.folder.files().get("out.gltf") == Some(PAIRED));
    Ok(())
}

// What a pair with the stem `m` has in place of its text.
const PAIRED_AS_M: &[u8] =
    b"{\"asset\":{\"version\":\"2.0\"},\"buffers\":[{\"byteLength\":4,\"uri\":\"m.bin\"}],\"bufferViews\":[{\"buffer\":0,\"byteLength\":4,\"byteOffset\":0}]}";

#[test]
fn a_pair_may_take_the_place_of_its_input(rt: HostRuntime) -> Result<(), Fail> {
    let alloc = rt.alloc();
    let mut ran = run_over(alloc, &["pair", "m.gltf", "m"], &HELD)?;
    assert!(rt;
        ended(
            &mut ran,
            Status::Done,
            b"",
            b"packed views 0 of 1 in 118 out 133\n"
        )
    );
    let files = ran.folder.files().as_slice();
    assert_eq!(rt; files.len(), 3);
    assert_eq!(rt; files[0].name.as_slice(), b"m.gltf".as_slice());
    assert_eq!(rt; files[0].bytes.as_slice(), PAIRED_AS_M);
    assert_eq!(rt; files[1].bytes.as_slice(), FOUR);
    assert_eq!(rt; files[2].bytes.as_slice(), OTHER.1);
    Ok(())
}

// 65 letters.
const LONG: &str = "aaaaaaaaaaaaaaaaaaaaaaaaaaaaaaaaaaaaaaaaaaaaaaaaaaaaaaaaaaaaaaaaa";

#[test]
fn stems_have_a_length_and_few_characters(rt: HostRuntime) -> Result<(), Fail> {
    let alloc = rt.alloc();
    for stem in ["azAZ09_-", "-", &LONG[..64]] {
        let ran = run_over(alloc, &["pair", "m.gltf", stem], &HELD)?;
        assert_eq!(rt; ran.status, Status::Done, "{stem}");
        assert_eq!(rt; count(&ran.folder), 5);
    }
    for stem in [
        "", "a.b", "a/b", "a b", "ä", "@", "[", "`", "{", "/", ":", LONG,
    ] {
        let mut ran = run_over(alloc, &["pair", "m.gltf", stem], &HELD)?;
        assert!(rt; ended(&mut ran, Status::Usage, b"", USAGE), "{stem}");
        assert!(rt; is_kept(&ran.folder, &HELD, alloc)?);
    }
    Ok(())
}

#[test]
fn other_words_are_no_commands_over_a_folder(rt: HostRuntime) -> Result<(), Fail> {
    let alloc = rt.alloc();
    let others: [&[&str]; 9] = [
        &["bundle"],
        &["bundle", ""],
        &["bundle", "m.gltf", "out"],
        &["Bundle", "m.gltf"],
        &["pair"],
        &["pair", "m.gltf"],
        &["pair", "", "out"],
        &["pair", "m.gltf", "out", "out"],
        &["same", "m.gltf", "m.gltf"],
    ];
    for words in others {
        let mut ran = run_over(alloc, words, &HELD)?;
        assert!(rt; ended(&mut ran, Status::Usage, b"", USAGE));
        assert!(rt; is_kept(&ran.folder, &HELD, alloc)?);
    }
    Ok(())
}

#[test]
fn a_command_without_a_folder_leaves_it(rt: HostRuntime) -> Result<(), Fail> {
    let alloc = rt.alloc();
    let ran = run_over(alloc, &["pack"], &HELD)?;
    assert_eq!(rt; ran.status, Status::Done);
    assert_eq!(rt;
        ran.output.held(),
        b"glTF\x02\0\0\0\x18\0\0\0\x04\0\0\0JSON{}  ".as_slice()
    );
    assert!(rt; is_kept(&ran.folder, &HELD, alloc)?);
    Ok(())
}
