// What is read of an asset with each of its parts.
use crate::{AccessorUse, Asset, Form, Role, ViewBytes, read_asset};
use gp_json::read;
use gp_rules::{Accessor, Component, Packed, Shape, Sparse, StreamMode, View};
use gp_tree::Tree;
use std::alloc::Global;
use std::test::Fail;

const TEXT: &[u8] = br#"{
  "extensionsUsed": ["EXT_meshopt_compression", "KHR_mesh_quantization"],
  "buffers": [
    {"byteLength": 36},
    {"byteLength": 64, "extensions": {"EXT_meshopt_compression": {"fallback": true}}},
    {"byteLength": 3, "uri": "data:application/octet-stream;base64,AQIDBA=="}
  ],
  "bufferViews": [
    {"buffer": 0, "byteLength": 24, "byteOffset": 2, "byteStride": 12},
    {"buffer": 1, "byteLength": 16, "byteOffset": 8, "byteStride": 8, "extensions": {"EXT_meshopt_compression":
      {"buffer": 0, "byteOffset": 30, "byteLength": 5, "byteStride": 8, "count": 2, "mode": "ATTRIBUTES", "filter": "NONE"}}},
    {"buffer": 2, "byteLength": 2, "byteOffset": 1},
    {"buffer": 1, "byteLength": 6, "extensions": {"EXT_meshopt_compression":
      {"buffer": 2, "byteLength": 3, "byteStride": 2, "count": 3, "mode": "TRIANGLES"}}}
  ],
  "accessors": [
    {"bufferView": 0, "componentType": 5126, "count": 2, "type": "VEC3"},
    {"bufferView": 1, "byteOffset": 2, "componentType": 5122, "count": 2, "type": "VEC3", "normalized": true},
    {"bufferView": 3, "componentType": 5123, "count": 3, "type": "SCALAR"},
    {"componentType": 5121, "count": 4, "type": "MAT2", "sparse":
      {"count": 2, "indices": {"bufferView": 2, "componentType": 5121}, "values": {"bufferView": 0, "byteOffset": 8}}}
  ],
  "meshes": [
    {"primitives": [{"attributes": {"POSITION": 0, "_\u0041": 1}, "indices": 2, "targets": [{"NORMAL": 1}, {}]}]},
    {"primitives": []},
    {"primitives": [{"attributes": {"POSITION": 1}, "mode": 0}, {"attributes": {}, "indices": 2, "mode": 5}]}
  ],
  "skins": [{}, {"inverseBindMatrices": 3}],
  "animations": [{"samplers": []}, {"samplers": [{"input": 2, "output": 0}]}],
  "images": [{"uri": "a.png"}, {"bufferView": 2}]
}"#;

// 37 bytes.
const CHUNK: &[u8] = b"0123456789ABCDEFGHIJKLMNOPQRSTUVWXYZ!";

fn asset_of<'a>(alloc: Global, root: &Tree, bin: &'a [u8]) -> Result<Asset<'a>, Fail> {
    Ok(read_asset(alloc, root, Some(bin), Form::Any)?)
}

#[test]
fn gives_views(rt: HostRuntime) -> Result<(), Fail> {
    let root = read(rt.alloc(), TEXT)?;
    let asset = asset_of(rt.alloc(), &root, CHUNK)?;
    let attributes = Packed {
        buffer: 0,
        offset: 30,
        length: 5,
        stride: 8,
        count: 2,
        mode: StreamMode::Attributes,
    };
    let triangles = Packed {
        buffer: 2,
        offset: 0,
        length: 3,
        stride: 2,
        count: 3,
        mode: StreamMode::Triangles,
    };
    let want = [
        View {
            buffer: 0,
            offset: 2,
            length: 24,
            stride: Some(12),
            packed: None,
        },
        View {
            buffer: 1,
            offset: 8,
            length: 16,
            stride: Some(8),
            packed: Some(attributes),
        },
        View {
            buffer: 2,
            offset: 1,
            length: 2,
            stride: None,
            packed: None,
        },
        View {
            buffer: 1,
            offset: 0,
            length: 6,
            stride: None,
            packed: Some(triangles),
        },
    ];
    assert_eq!(rt; asset.views(), want.as_slice());
    Ok(())
}

#[test]
fn gives_accessors(rt: HostRuntime) -> Result<(), Fail> {
    let root = read(rt.alloc(), TEXT)?;
    let asset = asset_of(rt.alloc(), &root, CHUNK)?;
    let sparse = Sparse {
        count: 2,
        index_view: 2,
        index_offset: 0,
        index_component: Component::U8,
        value_view: 0,
        value_offset: 8,
    };
    let want = [
        Accessor {
            view: Some(0),
            offset: 0,
            component: Component::F32,
            shape: Shape::Vec3,
            count: 2,
            sparse: None,
        },
        Accessor {
            view: Some(1),
            offset: 2,
            component: Component::I16,
            shape: Shape::Vec3,
            count: 2,
            sparse: None,
        },
        Accessor {
            view: Some(3),
            offset: 0,
            component: Component::U16,
            shape: Shape::Scalar,
            count: 3,
            sparse: None,
        },
        Accessor {
            view: None,
            offset: 0,
            component: Component::U8,
            shape: Shape::Mat2,
            count: 4,
            sparse: Some(sparse),
        },
    ];
    assert_eq!(rt; asset.accessors(), want.as_slice());
    Ok(())
}

#[test]
fn gives_the_first_primitive(rt: HostRuntime) -> Result<(), Fail> {
    let root = read(rt.alloc(), TEXT)?;
    let asset = asset_of(rt.alloc(), &root, CHUNK)?;
    assert_eq!(rt; asset.primitives().len(), 3);
    let first = &asset.primitives()[0];
    assert_eq!(rt; (first.mesh, first.at, first.mode), (0, 0, 4));
    assert_eq!(rt; first.indices, Some(2));
    let attributes = first.attributes.as_slice();
    assert_eq!(rt; attributes.len(), 2);
    assert_eq!(rt; attributes[0].name.as_slice(), b"POSITION".as_slice());
    assert_eq!(rt; attributes[1].name.as_slice(), br"_\u0041".as_slice());
    assert_eq!(rt; (attributes[0].accessor, attributes[1].accessor), (0, 1));
    let targets = first.targets.as_slice();
    assert_eq!(rt; targets.len(), 2);
    let (moved, still) = (targets[0].as_slice(), targets[1].as_slice());
    assert_eq!(rt; (moved.len(), still.len()), (1, 0));
    assert_eq!(rt; moved[0].name.as_slice(), b"NORMAL".as_slice());
    assert_eq!(rt; moved[0].accessor, 1);
    Ok(())
}

#[test]
fn gives_the_other_primitives(rt: HostRuntime) -> Result<(), Fail> {
    let root = read(rt.alloc(), TEXT)?;
    let asset = asset_of(rt.alloc(), &root, CHUNK)?;
    let primitives = asset.primitives();
    assert_eq!(rt; primitives.len(), 3);
    let (second, third) = (&primitives[1], &primitives[2]);
    assert_eq!(rt; (second.mesh, second.at, second.mode), (2, 0, 0));
    assert_eq!(rt; second.indices, None);
    assert_eq!(rt; second.attributes.as_slice().len(), 1);
    assert_eq!(rt; second.targets.as_slice().len(), 0);
    assert_eq!(rt; (third.mesh, third.at, third.mode), (2, 1, 5));
    assert_eq!(rt; third.indices, Some(2));
    assert_eq!(rt; third.attributes.as_slice().len(), 0);
    Ok(())
}

fn used(accessor: u32, role: Role, owner: u32) -> AccessorUse {
    AccessorUse {
        accessor,
        role,
        owner,
    }
}

#[test]
fn gives_uses(rt: HostRuntime) -> Result<(), Fail> {
    let root = read(rt.alloc(), TEXT)?;
    let asset = asset_of(rt.alloc(), &root, CHUNK)?;
    let want = [
        used(0, Role::Attribute, 0),
        used(1, Role::Attribute, 0),
        used(1, Role::Target, 0),
        used(2, Role::Indices, 0),
        used(1, Role::Attribute, 1),
        used(2, Role::Indices, 2),
        used(3, Role::InverseBind, 1),
        used(2, Role::SamplerInput, 1),
        used(0, Role::SamplerOutput, 1),
    ];
    assert_eq!(rt; asset.uses(), want.as_slice());
    assert_eq!(rt; asset.images(), [None, Some(2)].as_slice());
    assert_eq!(rt; asset.is_closed(), true);
    Ok(())
}

#[test]
fn gives_bytes(rt: HostRuntime) -> Result<(), Fail> {
    let root = read(rt.alloc(), TEXT)?;
    let asset = asset_of(rt.alloc(), &root, CHUNK)?;
    let has = [0, 1, 2, 3, 4].map(|at| asset.has(at));
    assert_eq!(rt; has, [true, false, true, false, false]);
    assert!(rt; asset.has(0));
    assert_eq!(rt; asset.view(0), b"23456789ABCDEFGHIJKLMNOP".as_slice());
    assert!(rt; asset.has(2));
    assert_eq!(rt; asset.view(2), [2u8, 3].as_slice());
    Ok(())
}

// The stream of a view.
fn stream<'a>(asset: &'a Asset<'_>, at: usize) -> &'a [u8] {
    match asset.views().get(at) {
        Some(view) if view.packed.is_some() => asset.packed_bytes(at),
        _ => b"none",
    }
}

#[test]
fn gives_streams(rt: HostRuntime) -> Result<(), Fail> {
    let root = read(rt.alloc(), TEXT)?;
    let asset = asset_of(rt.alloc(), &root, CHUNK)?;
    assert_eq!(rt; stream(&asset, 0), b"none".as_slice());
    assert_eq!(rt; stream(&asset, 1), b"UVWXY".as_slice());
    assert_eq!(rt; stream(&asset, 3), [1u8, 2, 3].as_slice());
    Ok(())
}
