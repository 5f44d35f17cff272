// Containers and data URIs whose answers are known from outside: faults and their order, chunks and their padding, the alphabet.
use super::*;
use std::test::Fail;

const TEXT: &[u8; 27] = b"{\"asset\":{\"version\":\"2.0\"}}";

const GLB: &[u8; 48] = b"glTF\x02\0\0\0\x30\0\0\0\x1c\0\0\0JSON{\"asset\":{\"version\":\"2.0\"}} ";

const THREE: &[u8; 48] =
    b"glTF\x02\0\0\0\x30\0\0\0\x04\0\0\0JSON{}  \x04\0\0\0BIN\0\x01\x02\0\0\x04\0\0\0abcdwxyz";

// The largest JSON, in bytes.
const LIMIT: usize = 67_108_864;

#[test]
fn a_byte_or_a_cut_is_told_as_its_fault(rt: HostRuntime) -> Result<(), Fail> {
    for (at, byte, fault) in [
        (0, 0, GlbFault::Magic),
        (4, 1, GlbFault::Version),
        (7, 1, GlbFault::Version),
        (8, 11, GlbFault::Length),
        (8, 49, GlbFault::Length),
        (11, 1, GlbFault::Length),
        (8, 12, GlbFault::Chunk { at: 0 }),
        (8, 19, GlbFault::Chunk { at: 0 }),
        (8, 47, GlbFault::Chunk { at: 0 }),
        (12, 29, GlbFault::Chunk { at: 0 }),
        (12, 32, GlbFault::Chunk { at: 0 }),
        (15, 255, GlbFault::Chunk { at: 0 }),
        (16, b'j', GlbFault::Chunk { at: 0 }),
        (12, 24, GlbFault::Chunk { at: 1 }),
    ] {
        assert!(rt; at < GLB.len());
        let mut bytes = *GLB;
        bytes[at] = byte;
        assert_eq!(rt; split(&bytes).err(), Some(fault), "byte {at}");
    }
    for len in 0..48 {
        let fault = if len < 12 {
            GlbFault::TooShort
        } else {
            GlbFault::Length
        };
        assert_eq!(rt; split(&GLB[..len]).err(), Some(fault), "{len} bytes");
    }
    Ok(())
}

#[test]
fn the_first_fault_is_told(rt: HostRuntime) -> Result<(), Fail> {
    let rows: [(&[u8], GlbFault); 14] = [
        // white space alone, a byte order mark, and white space of another kind before `{`
        (b" \t\r\n", GlbFault::TooShort),
        (b"\xEF\xBB\xBF{}", GlbFault::TooShort),
        (b"\x0B{\"asset\":{}}", GlbFault::Magic),
        // two neighbouring faults in the same bytes
        (b"glTX\x02", GlbFault::TooShort),
        (b"glTX\x01\0\0\0\x0C\0\0\0", GlbFault::Magic),
        (b"glTF\x01\0\0\0\x0B\0\0\0", GlbFault::Version),
        (b"glTF\x02\0\0\0\x15\0\0\0\x04\0\0\0BIN\0", GlbFault::Length),
        // no chunk; JSON twice; BIN first, and as chunk 2 and 3
        (
            b"glTF\x02\0\0\0\x0C\0\0\0\0\0\0\0JSON",
            GlbFault::Chunk { at: 0 },
        ),
        (
            b"glTF\x02\0\0\0\x24\0\0\0\x04\0\0\0JSON{}  \x04\0\0\0JSON{}  ",
            GlbFault::Chunk { at: 1 },
        ),
        (
            b"glTF\x02\0\0\0\x14\0\0\0\0\0\0\0BIN\0",
            GlbFault::Chunk { at: 0 },
        ),
        (
            b"glTF\x02\0\0\0\x24\0\0\0\0\0\0\0JSON\0\0\0\0abcd\0\0\0\0BIN\0",
            GlbFault::Chunk { at: 2 },
        ),
        (
            b"glTF\x02\0\0\0\x2C\0\0\0\0\0\0\0JSON\0\0\0\0BIN\0\0\0\0\0abcd\0\0\0\0BIN\0",
            GlbFault::Chunk { at: 3 },
        ),
        // a total that isn't a multiple of 4, and a chunk that is cut by the total
        (
            b"glTF\x02\0\0\0\x15\0\0\0\0\0\0\0JSON\0",
            GlbFault::Chunk { at: 1 },
        ),
        (
            b"glTF\x02\0\0\0\x1C\0\0\0\0\0\0\0JSON\x04\0\0\0BIN\0\x01\x02\x03\x04",
            GlbFault::Chunk { at: 1 },
        ),
    ];
    for (bytes, fault) in rows {
        assert_eq!(rt; split(bytes).err(), Some(fault), "{fault:?}");
    }
    Ok(())
}

#[test]
fn chunks_are_split(rt: HostRuntime) -> Result<(), Fail> {
    let rows: [(&[u8], &[u8], Option<&[u8]>, &[u8]); 9] = [
        (TEXT, TEXT, None, b""),
        (b" \t\r\n{}", b" \t\r\n{}", None, b""),
        (GLB, b"{\"asset\":{\"version\":\"2.0\"}} ", None, b""),
        (THREE, b"{}  ", Some(b"\x01\x02\0\0"), b"\x04\0\0\0abcdwxyz"),
        // chunks of no bytes
        (b"glTF\x02\0\0\0\x14\0\0\0\0\0\0\0JSON", b"", None, b""),
        (
            b"glTF\x02\0\0\0\x24\0\0\0\0\0\0\0JSON\0\0\0\0BIN\0\0\0\0\0abcd",
            b"",
            Some(b""),
            b"\0\0\0\0abcd",
        ),
        // bytes past the total, that are no chunk and that are one
        (
            b"glTF\x02\0\0\0\x30\0\0\0\x1c\0\0\0JSON{\"asset\":{\"version\":\"2.0\"}} \x07",
            b"{\"asset\":{\"version\":\"2.0\"}} ",
            None,
            b"",
        ),
        (
            b"glTF\x02\0\0\0\x1C\0\0\0\0\0\0\0JSON\0\0\0\0abcdJSON",
            b"",
            None,
            b"\0\0\0\0abcd",
        ),
        (
            b"glTF\x02\0\0\0\x14\0\0\0\0\0\0\0JSON\0\0\0\0BIN\0",
            b"",
            None,
            b"",
        ),
    ];
    for (bytes, json, bin, rest) in rows {
        let chunks = split(bytes)?;
        assert_eq!(rt; chunks.json, json);
        assert_eq!(rt; chunks.bin, bin);
        assert_eq!(rt; chunks.rest, rest);
    }
    Ok(())
}

#[test]
fn a_json_of_2_to_the_26_bytes_is_the_largest(rt: HostRuntime) -> Result<(), Fail> {
    let mut text = vec![in rt.alloc(); b'{'; LIMIT]?;
    assert_eq!(rt; split(&text).is_ok(), true);
    text.push(b'{')?;
    assert_eq!(rt; split(&text).err(), Some(GlbFault::JsonTooLarge));
    let mut glb = Vec::from_slice(rt.alloc(), b"glTF\x02\0\0\0\x18\0\0\x04\x04\0\0\x04JSON")?;
    glb.resize(LIMIT + 24, b' ')?;
    assert_eq!(rt; split(&glb).err(), Some(GlbFault::JsonTooLarge));
    Ok(())
}

#[test]
fn containers_are_joined(rt: HostRuntime) -> Result<(), Fail> {
    let alloc = rt.alloc();
    let glb = join(alloc, TEXT, None, b"")?;
    assert_eq!(rt; glb.as_slice(), GLB.as_slice());
    // no memory is taken past the whole length
    assert_eq!(rt; glb.capacity(), 48);
    let rest = b"\x04\0\0\0abcdwxyz";
    let three = join(alloc, b"{}", Some(b"\x01\x02"), rest)?;
    assert_eq!(rt; three.as_slice(), THREE.as_slice());
    for (json, bin, rest, len) in [
        (27, None, 0, Some(48)),
        (2, Some(2), 12, Some(48)),
        (0, Some(0), 0, Some(28)),
        (4_294_967_272, None, 0, Some(4_294_967_292)),
        (4_294_967_272, None, 4, None),
        (4_294_967_292, None, 0, None),
    ] {
        assert_eq!(rt; total(json, bin, rest), len, "{json} {rest}");
    }
    Ok(())
}

#[test]
fn data_uris_are_decoded(rt: HostRuntime) -> Result<(), Fail> {
    let rows: [(&[u8], Result<&[u8], UriFault>); 16] = [
        (
            b"data:application/octet-stream;base64,AQIDBA==",
            Ok(b"\x01\x02\x03\x04"),
        ),
        (b"data:application/octet-stream;base64,", Ok(b"")),
        // the test vectors of RFC 4648, section 10
        (b"data:application/gltf-buffer;base64,Zg==", Ok(b"f")),
        (b"data:application/gltf-buffer;base64,Zm8=", Ok(b"fo")),
        (
            b"data:application/gltf-buffer;base64,Zm9vYmFy",
            Ok(b"foobar"),
        ),
        // no padding, too little, too much, bits left over, a space, and the alphabet of section 5
        (
            b"data:application/octet-stream;base64,AQ",
            Err(UriFault::Base64),
        ),
        (
            b"data:application/gltf-buffer;base64,Zg=",
            Err(UriFault::Base64),
        ),
        (
            b"data:application/gltf-buffer;base64,Zm9v=",
            Err(UriFault::Base64),
        ),
        (
            b"data:application/gltf-buffer;base64,Zh==",
            Err(UriFault::Base64),
        ),
        (
            b"data:application/gltf-buffer;base64,Zg= =",
            Err(UriFault::Base64),
        ),
        (
            b"data:application/gltf-buffer;base64,-_8=",
            Err(UriFault::Base64),
        ),
        // no prefix, a prefix of another type, in capitals, cut and moved
        (b"a.bin", Err(UriFault::Scheme)),
        (b"data:image/png;base64,Zg==", Err(UriFault::Scheme)),
        (
            b"data:application/OCTET-STREAM;base64,Zg==",
            Err(UriFault::Scheme),
        ),
        (
            b"data:application/octet-stream;base64",
            Err(UriFault::Scheme),
        ),
        (
            b" data:application/octet-stream;base64,Zg==",
            Err(UriFault::Scheme),
        ),
    ];
    for (text, answer) in rows {
        let bytes = data_uri(rt.alloc(), text);
        match (&bytes, answer) {
            (Ok(bytes), Ok(wanted)) => assert_eq!(rt; bytes.as_slice(), wanted),
            (Err(fault), Err(wanted)) => assert_eq!(rt; *fault, wanted),
            _ => assert!(rt; false, "another answer"),
        }
    }
    Ok(())
}

#[test]
fn the_alphabet_is_that_of_base64(rt: HostRuntime) -> Result<(), Fail> {
    let text =
        b"data:application/octet-stream;base64,ABCDEFGHIJKLMNOPQRSTUVWXYZabcdefghijklmnopqrstuvwxyz0123456789+/";
    let bytes = data_uri(rt.alloc(), text)?;
    assert_eq!(rt; bytes.len(), 48);
    // the values 0 to 63 of the characters, six bits each, the highest first
    for (at, three) in bytes.chunks_exact(3).enumerate() {
        let bits = u32::from_be_bytes([0, three[0], three[1], three[2]]);
        for place in 0..4 {
            let value = (bits >> (18 - 6 * place)) % 64;
            assert_eq!(rt; value as usize, 4 * at + place, "character {at} {place}");
        }
    }
    Ok(())
}
