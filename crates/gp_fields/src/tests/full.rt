// What is read of an asset with each field, and with those alone that have to be there.
use crate::{
    AccessorFields, AssetFields, PackedFields, SamplerFields, SparseFields, SparseIndicesFields,
    SparseValuesFields, ViewFields, read_fields,
};
use gp_json::read;
use gp_tree::{Lexeme, Tree};
use std::alloc::Global;
use std::process::Abort;
use std::test::Fail;

const TEXT: &[u8] = br#"{
  "extensionsUsed": ["EXT_meshopt_compression"],
  "buffers": [
    {"byteLength": 100, "uri": "a\u0062.bin"},
    {"byteLength": 200, "extensions": {"EXT_meshopt_compression": {"fallback": true}, "x": 1}}
  ],
  "bufferViews": [
    {"buffer": 0, "byteLength": 10},
    {"buffer": 1, "byteLength": 20, "byteOffset": 30, "byteStride": 12, "extensions": {"EXT_meshopt_compression":
      {"buffer": 0, "byteOffset": 40, "byteLength": 50, "byteStride": 12, "count": 60, "mode": "ATTRIBUTES", "filter": "OCTAHEDRAL"}}},
    {"buffer": 1, "byteLength": 20, "extensions": {"EXT_meshopt_compression":
      {"buffer": 1, "byteLength": 51, "byteStride": 2, "count": 61, "mode": "INDICES"}}}
  ],
  "accessors": [
    {"componentType": 5126, "count": 3, "type": "VEC3"},
    {"bufferView": 1, "byteOffset": 4, "componentType": 5123, "count": 5, "type": "SCALAR", "sparse":
      {"count": 2, "indices": {"bufferView": 2, "byteOffset": 6, "componentType": 5121}, "values": {"bufferView": 1}}}
  ],
  "meshes": [
    {"primitives": []},
    {"primitives": [
      {"attributes": {"POSITION": 0, "_\u0041": 1}},
      {"attributes": {}, "mode": 1, "indices": 1, "targets": [{}, {"NORMAL": 0}]}
    ]}
  ],
  "skins": [{}, {"inverseBindMatrices": 1}],
  "animations": [{"samplers": [{"input": 0, "output": 1}, {"input": 1, "output": 0}]}],
  "images": [{"bufferView": 2}, {"uri": "c.png"}]
}"#;

fn fields_of<'a>(alloc: Global, root: &'a Tree) -> Result<AssetFields<'a>, Fail> {
    Ok(read_fields(alloc, root)?)
}

fn bytes(spelling: Option<&Lexeme>) -> &[u8] {
    match spelling {
        Some(spelling) => spelling.as_slice(),
        None => b"absent",
    }
}

#[test]
fn reads_buffers(rt: HostRuntime) -> Result<(), Fail> {
    let root = read(rt.alloc(), TEXT)?;
    let buffers = fields_of(rt.alloc(), &root)?.buffers;
    assert_eq!(rt; buffers.len(), 2);
    assert_eq!(rt; (buffers[0].length, buffers[1].length), (100, 200));
    assert_eq!(rt; bytes(buffers[0].uri), br"a\u0062.bin".as_slice());
    assert_eq!(rt; bytes(buffers[1].uri), b"absent".as_slice());
    assert_eq!(rt; buffers[0].extensions.is_some(), false);
    assert_eq!(rt;
        buffers[1]
            .extensions
            .map_or(0, |names| names.find("x").map_or(0, |_| 1)),
        1
    );
    Ok(())
}

// The buffer, offset, length and stride of a view.
fn assert_view(rt: &impl Abort, view: &ViewFields<'_>, want: (u32, u32, u32, Option<u32>)) {
    assert_eq!(rt; (view.buffer, view.offset, view.length, view.stride), want);
}

#[test]
fn reads_views(rt: HostRuntime) -> Result<(), Fail> {
    let root = read(rt.alloc(), TEXT)?;
    let views = fields_of(rt.alloc(), &root)?.views;
    assert_eq!(rt; views.len(), 3);
    assert_view(&rt, &views[0], (0, 0, 10, None));
    assert_eq!(rt; views[0].packed.is_none(), true);
    assert_view(&rt, &views[1], (1, 30, 20, Some(12)));
    Ok(())
}

// The buffer, offset, length, stride and count of a packed view, its mode and its filter.
fn assert_packed(
    rt: &impl Abort,
    packed: &PackedFields<'_>,
    (numbers, mode, filter): ([u32; 5], &[u8], &[u8]),
) {
    let (buffer, offset) = (packed.buffer, packed.offset);
    let found = [buffer, offset, packed.length, packed.stride, packed.count];
    assert_eq!(rt; found, numbers);
    assert_eq!(rt; packed.mode.as_slice(), mode);
    assert_eq!(rt; bytes(packed.filter), filter);
}

#[test]
fn reads_packed_views(rt: HostRuntime) -> Result<(), Fail> {
    let root = read(rt.alloc(), TEXT)?;
    let views = fields_of(rt.alloc(), &root)?.views;
    assert_eq!(rt; views.len(), 3);
    let full = views[1].packed.as_ref().ok_or("it is packed")?;
    assert_packed(
        &rt,
        full,
        ([0, 40, 50, 12, 60], b"ATTRIBUTES", b"OCTAHEDRAL"),
    );
    let bare = views[2].packed.as_ref().ok_or("it is packed")?;
    assert_packed(&rt, bare, ([1, 0, 51, 2, 61], b"INDICES", b"absent"));
    Ok(())
}

// The view, offset, component and count of an accessor, and its type.
fn assert_accessor(
    rt: &impl Abort,
    accessor: &AccessorFields<'_>,
    want: (Option<u32>, u32, u32, u32),
    shape: &[u8],
) {
    let (view, offset) = (accessor.view, accessor.offset);
    assert_eq!(rt; (view, offset, accessor.component, accessor.count), want);
    assert_eq!(rt; accessor.shape.as_slice(), shape);
}

#[test]
fn reads_accessors(rt: HostRuntime) -> Result<(), Fail> {
    const SPARSE: SparseFields = SparseFields {
        count: 2,
        indices: SparseIndicesFields {
            view: 2,
            offset: 6,
            component: 5121,
        },
        values: SparseValuesFields { view: 1, offset: 0 },
    };
    let root = read(rt.alloc(), TEXT)?;
    let accessors = fields_of(rt.alloc(), &root)?.accessors;
    assert_eq!(rt; accessors.len(), 2);
    assert_accessor(&rt, &accessors[0], (None, 0, 5126, 3), b"VEC3");
    assert_eq!(rt; accessors[0].sparse, None);
    assert_accessor(&rt, &accessors[1], (Some(1), 4, 5123, 5), b"SCALAR");
    assert_eq!(rt; accessors[1].sparse, Some(SPARSE));
    Ok(())
}

#[test]
fn reads_a_bare_primitive(rt: HostRuntime) -> Result<(), Fail> {
    let root = read(rt.alloc(), TEXT)?;
    let meshes = fields_of(rt.alloc(), &root)?.meshes;
    assert_eq!(rt; meshes.len(), 2);
    assert_eq!(rt;
        (meshes[0].primitives.len(), meshes[1].primitives.len()),
        (0, 2)
    );
    let bare = &meshes[1].primitives[0];
    assert_eq!(rt; (bare.mode, bare.indices), (4, None));
    let attributes = bare.attributes.as_slice();
    assert_eq!(rt; (attributes.len(), bare.targets.as_slice().len()), (2, 0));
    assert_eq!(rt; (attributes[0].accessor, attributes[1].accessor), (0, 1));
    assert_eq!(rt; attributes[0].name.as_slice(), b"POSITION".as_slice());
    assert_eq!(rt; attributes[1].name.as_slice(), br"_\u0041".as_slice());
    Ok(())
}

#[test]
fn reads_a_full_primitive(rt: HostRuntime) -> Result<(), Fail> {
    let root = read(rt.alloc(), TEXT)?;
    let meshes = fields_of(rt.alloc(), &root)?.meshes;
    assert_eq!(rt; meshes.len(), 2);
    assert_eq!(rt; meshes[1].primitives.len(), 2);
    let full = &meshes[1].primitives[1];
    assert_eq!(rt; (full.mode, full.indices), (1, Some(1)));
    assert_eq!(rt;
        (
            full.attributes.as_slice().len(),
            full.targets.as_slice().len()
        ),
        (0, 2)
    );
    let target = full.targets.as_slice()[1].as_slice();
    assert_eq!(rt; target.len(), 1);
    assert_eq!(rt; target[0].name.as_slice(), b"NORMAL".as_slice());
    assert_eq!(rt; target[0].accessor, 0);
    Ok(())
}

const SAMPLERS: &[SamplerFields] = &[
    SamplerFields {
        input: 0,
        output: 1,
    },
    SamplerFields {
        input: 1,
        output: 0,
    },
];

#[test]
fn reads_skins_animations_and_images(rt: HostRuntime) -> Result<(), Fail> {
    let root = read(rt.alloc(), TEXT)?;
    let fields = fields_of(rt.alloc(), &root)?;
    assert_eq!(rt; fields.skins.as_slice(), [None, Some(1)].as_slice());
    assert_eq!(rt; fields.images.as_slice(), [Some(2), None].as_slice());
    assert_eq!(rt; fields.animations.len(), 1);
    let samplers = fields.animations[0].samplers.as_slice();
    assert_eq!(rt; samplers, SAMPLERS);
    Ok(())
}
