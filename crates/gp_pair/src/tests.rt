// What no clause says: that the definitions are the rules of the format, on whole files, and that the calls succeed where
// memory is ample.
ghost use Rattle.gp_folder.specs.Files.{AreNamed};
ghost use Rattle.std.specs.Prelude.{IfOk};

use crate::{BundleRefusal, bundle, put_pair, text_of};
use gp_asset::Refusal;
use gp_document::read_document;
use gp_folder::{FileList, Folder, MemoryFolder, PutRefusal};
use gp_glb::GlbFault;
use gp_host::NoMemory;
use std::alloc::Global;
use std::process::Abort;
use std::test::Fail;

// What stands before and behind the `uri` of the one buffer of a text.
const BEFORE: &str = "{\"asset\":{\"version\":\"2.0\"},\"buffers\":[{\"byteLength\":4,\"uri\":\"";

const BEHIND: &str = "\"}],\"bufferViews\":[{\"buffer\":0,\"byteLength\":4}]}";

// The text with its buffer in the BIN chunk.
const IN_CHUNK: &[u8] =
    b"glTF\x02\0\0\0\x84\0\0\0d\0\0\0JSON{\"asset\":{\"version\":\"2.0\"},\"buffers\":[{\"byteLength\":4}],\"bufferViews\":[{\"buffer\":0,\"byteLength\":4}]}\x04\0\0\0BIN\0\x01\x02\x03\x04";

// Two buffers in files of their own.
const TWO: &[u8] =
    b"{\"asset\":{\"version\":\"2.0\"},\"buffers\":[{\"byteLength\":4,\"uri\":\"m.bin\"},{\"byteLength\":4,\"uri\":\"n.bin\"}],\"bufferViews\":[{\"buffer\":1,\"byteLength\":4}]}";

const TWO_JOINED: &[u8] =
    b"glTF\x02\0\0\0\xcc\0\0\0\xac\0\0\0JSON{\"asset\":{\"version\":\"2.0\"},\"buffers\":[{\"byteLength\":4},{\"byteLength\":4,\"uri\":\"data:application/octet-stream;base64,AQIDBA==\"}],\"bufferViews\":[{\"buffer\":1,\"byteLength\":4}]} \x04\0\0\0BIN\0\0\0\0\0";

// A folder with these files.
fn folder_of(
    alloc: Global,
    files: &[(&str, &[u8])],
    failing: Vec<u32>,
) -> Result<MemoryFolder, NoMemory> {
    let mut list = FileList::new(alloc);
    'files: for at in 0..files.len() {
        let (name, bytes) = files[at];
        list.set(alloc, name, bytes)?;
    }
    Ok(MemoryFolder::new(alloc, list, failing))
}

// The text with this `uri`.
fn text_with(alloc: Global, uri: &str) -> Result<String, NoMemory> {
    let mut text = String::from_str(alloc, BEFORE)?;
    text.push_str(uri)?;
    text.push_str(BEHIND)?;
    Ok(text)
}

#[test]
fn a_name_is_decoded_once_and_found_beside_the_text(rt: HostRuntime) -> Result<(), Fail> {
    let alloc = rt.alloc();
    let rows: [(&str, &str, &str); 9] = [
        ("m.gltf", "m.bin", "m.bin"),
        ("m.gltf", "%6D.bin", "m.bin"),
        ("m.gltf", "a%20b", "a b"),
        ("m.gltf", "./m.bin", "./m.bin"),
        ("m.gltf", "a%2525", "a%25"),
        ("m.gltf", "100%", "100%"),
        ("m.gltf", "a%2", "a%2"),
        ("in/a/m.gltf", "b/m.bin", "in/a/b/m.bin"),
        ("m.gltf", "..m/m..", "..m/m.."),
    ];
    for (name, uri, file) in rows {
        let text = text_with(alloc, uri)?;
        let files = [
            (name, text.as_bytes()),
            (file, b"\x01\x02\x03\x04".as_slice()),
        ];
        let mut folder = folder_of(alloc, &files, Vec::new(alloc))?;
        let bundled = bundle(alloc, &mut folder, name)?;
        assert_eq!(rt; bundled.glb.as_slice(), IN_CHUNK, "{uri}");
        assert_eq!(rt; bundled.taken, text.len() as u64 + 4);
    }
    Ok(())
}

#[test]
fn a_name_that_is_not_safe_stays(rt: HostRuntime) -> Result<(), Fail> {
    let alloc = rt.alloc();
    let rows = [
        "",
        "../m.bin",
        "a/../b",
        "a/..",
        "..",
        "%2e%2E/m",
        "/m.bin",
        "%2Fm.bin",
        "C:m.bin",
        "http://m.bin",
        "a\\\\b",
        "%C3%A9.bin",
        "a%00b",
        "data:,x",
    ];
    for uri in rows {
        let text = text_with(alloc, uri)?;
        let mut folder = folder_of(alloc, &[("m.gltf", text.as_bytes())], vec![in alloc; 1]?)?;
        let bundled = bundle(alloc, &mut folder, "m.gltf")?;
        assert_eq!(rt; bundled.taken, text.len() as u64, "{uri}");
        let document = read_document(alloc, bundled.glb.as_slice())?;
        assert_eq!(rt; document.bin.is_none(), true);
    }
    Ok(())
}

#[test]
fn buffers_past_the_first_become_data_uris(rt: HostRuntime) -> Result<(), Fail> {
    let alloc = rt.alloc();
    let files: [(&str, &[u8]); 3] = [
        ("m.gltf", TWO),
        ("m.bin", b"\0\0\0\0"),
        ("n.bin", b"\x01\x02\x03\x04"),
    ];
    let mut folder = folder_of(alloc, &files, vec![in alloc; 3]?)?;
    let bundled = bundle(alloc, &mut folder, "m.gltf")?;
    assert_eq!(rt; bundled.glb.as_slice(), TWO_JOINED);
    assert_eq!(rt; bundled.taken, 153);
    Ok(())
}

// The refusal of `m.gltf` of a folder.
fn refusal_of(
    alloc: Global,
    files: &[(&str, &[u8])],
    failing: Vec<u32>,
) -> Result<Option<BundleRefusal>, NoMemory> {
    let mut folder = folder_of(alloc, files, failing)?;
    Ok(bundle(alloc, &mut folder, "m.gltf").err())
}

#[test]
fn the_first_refusal_is_told(rt: HostRuntime) -> Result<(), Fail> {
    let alloc = rt.alloc();
    let missing = |buffer| Some(BundleRefusal::Missing { buffer });
    let m: (&str, &[u8]) = ("m.gltf", TWO);
    let none = refusal_of(alloc, &[], Vec::new(alloc))?;
    assert_eq!(rt; none, missing(None));
    let first = refusal_of(alloc, &[m, ("n.bin", b"")], Vec::new(alloc))?;
    assert_eq!(rt; first, missing(Some(0)));
    let second = refusal_of(alloc, &[m, ("m.bin", b"")], Vec::new(alloc))?;
    assert_eq!(rt; second, missing(Some(1)));
    for at in 0..2 {
        let failed = refusal_of(alloc, &[m, ("m.bin", b"")], vec![in alloc; at]?)?;
        assert_eq!(rt; failed, Some(BundleRefusal::Failed));
    }
    let bad = refusal_of(alloc, &[("m.gltf", b"glTX")], Vec::new(alloc))?;
    let fault = GlbFault::TooShort;
    assert_eq!(rt; bad, Some(BundleRefusal::Bad(Refusal::Glb(fault))));
    Ok(())
}

// What packing makes of the text, and its text in a pair.
const PACKED: &[u8] =
    b"glTF\x02\0\0\0\x94\0\0\0t\0\0\0JSON{\"asset\":{\"version\":\"2.0\"},\"buffers\":[{\"byteLength\":4}],\"bufferViews\":[{\"buffer\":0,\"byteLength\":4,\"byteOffset\":0}]} \x04\0\0\0BIN\0\x01\x02\x03\x04";

const OUT: &[u8] =
    b"{\"asset\":{\"version\":\"2.0\"},\"buffers\":[{\"byteLength\":4,\"uri\":\"out.bin\"}],\"bufferViews\":[{\"buffer\":0,\"byteLength\":4,\"byteOffset\":0}]}";

// Puts that container as a pair, and gives what the put gave.
fn put_packed(alloc: Global, folder: &mut MemoryFolder) -> Result<u64, PutRefusal> {
    match read_document(alloc, PACKED) {
        Ok(_) => put_pair(alloc, folder, "out", PACKED),
        Err(_) => Err(PutRefusal::Memory),
    }
}

#[test]
fn a_pair_is_put(rt: HostRuntime) -> Result<(), Fail> {
    let alloc = rt.alloc();
    let mut folder = folder_of(alloc, &[], Vec::new(alloc))?;
    assert_eq!(rt; put_packed(alloc, &mut folder), Ok(135));
    assert_eq!(rt;
        folder.files().get("out.bin"),
        Some(b"\x01\x02\x03\x04".as_slice())
    );
    assert_eq!(rt; folder.files().get("out.gltf"), Some(OUT));
    // the text is put last
    let mut folder = folder_of(alloc, &[], vec![in alloc; 1]?)?;
    assert_eq!(rt; put_packed(alloc, &mut folder), Err(PutRefusal::Failed));
    assert_eq!(rt; folder.files().get("out.bin").is_some(), true);
    assert_eq!(rt; folder.files().get("out.gltf"), None);
    Ok(())
}
