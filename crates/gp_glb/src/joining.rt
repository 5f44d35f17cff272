// Joining a container: its length, and its bytes.
ghost use Rattle.std.specs.Prelude.{◌≡◌, ℕ, ◌+◌, ◌<◌, ◌^◌, ◌++◌, length, nat_lt, IfOk, IfSome, OnOk, Some, None, if◌then◌else◌};
ghost use Rattle.std.specs.Option.{option_map};
ghost use Rattle.gp_glb.specs.Bytes.{chunk_bytes, chunks_bytes, header, padded, word};
ghost use Rattle.gp_glb.specs.Container.{AreWholeChunks, bin_chunks, glb, glb_len, padded_len};

use crate::header::{MAGIC, VERSION};
use crate::next_chunk::{BIN, JSON};
use byteorder::{ByteOrder, LittleEndian};
use gp_host::NoMemory;
use std::alloc::Global;

// The length with the padding to a multiple of 4.
fn padded_len(length: u64) -> u64
    requires { length < 2 ^ 40 }
    ensures { result ≡ padded_len length }
{
    length + (4 - length % 4) % 4
}

// The length of a joined container.
fn joined_len(json: u64, bin: Option<u64>, rest: u64) -> u64
    requires json { json < 2 ^ 40 }
    requires bin { IfSome bin (λ n. n < 2 ^ 40) }
    requires rest { rest < 2 ^ 40 }
    ensures { result ≡ glb_len json bin rest }
{
    let bin_len = match bin {
        Some(length) => 8 + padded_len(length),
        None => 0,
    };
    20 + padded_len(json) + bin_len + rest
}

/// The length in bytes of the container that `join` makes of parts with these lengths, or `None` where a header can't state it: from 2^32 on (glTF 2.0, GLB file format).
pub fn total(json: u64, bin: Option<u64>, rest: u64) -> Option<u32>
    requires json { json < 2 ^ 40 }
    requires bin { IfSome bin (λ n. n < 2 ^ 40) }
    requires rest { rest < 2 ^ 40 }
    ensures { result ≡ (if nat_lt (glb_len json bin rest) (2 ^ 32) then Some (glb_len json bin rest) else None) }
{
    u32::try_from(joined_len(json, bin, rest)).ok()
}

// The length of these bytes, where there are some.
fn len_of(bytes: Option<&[u8]>) -> Option<u64>
    ensures { result ≡ option_map (λ b. length b.now) bytes.entry }
{
    match bytes {
        Some(bytes) => Some(bytes.len() as u64),
        None => None,
    }
}

// Appends a number in four bytes, the lowest first.
fn put_word(out: &mut Vec<u8>, number: u32) -> Result<(), NoMemory>
    ensures { OnOk result (out.new.items ≡ out.old.items ++ word number) }
{
    let mut bytes = [0; 4];
    LittleEndian::write_u32(&mut bytes, number);
    out.extend_from_slice(&bytes)?;
    Ok(())
}

// Appends a header.
fn put_header(out: &mut Vec<u8>, total: u32) -> Result<(), NoMemory>
    ensures { OnOk result (out.new.items ≡ out.old.items ++ header total) }
{
    put_word(out, MAGIC)?;
    put_word(out, VERSION)?;
    put_word(out, total)
}

// Appends a chunk, padded to a multiple of 4.
fn put_chunk(out: &mut Vec<u8>, kind: u32, content: &[u8], filler: u8) -> Result<(), NoMemory>
    requires { length content.now + 3 < 2 ^ 32 }
    ensures { OnOk result (out.new.items ≡ out.old.items ++ chunk_bytes (record { kind = kind; content = padded filler content.now })) }
{
    let padding = (4 - content.len() % 4) % 4;
    put_word(out, (content.len() + padding) as u32)?;
    put_word(out, kind)?;
    out.extend_from_slice(content)?;
    out.extend_from_slice(&[filler; 3][..padding])?;
    Ok(())
}

// Appends the BIN chunk, where there is one.
fn put_bin(out: &mut Vec<u8>, bin: Option<&[u8]>) -> Result<(), NoMemory>
    requires { IfSome bin (λ b. length b.now + 3 < 2 ^ 32) }
    ensures { OnOk result (out.new.items ≡ out.old.items ++ chunks_bytes (bin_chunks (option_map (λ b. padded 0 b.now) bin.entry))) }
{
    match bin {
        Some(content) => put_chunk(out, BIN, content, 0),
        None => Ok(()),
    }
}

/// Writes a container: its header, a JSON chunk filled up with spaces, a BIN chunk filled up with zeros if there are bytes for one, and the chunks of the rest (glTF 2.0, GLB file format).
///
/// The rest is whole chunks with their headers, as `split` gives them, and `total` of the lengths is `Some`. The memory is taken once, for the whole length.
pub fn join(
    alloc: Global,
    json: &[u8],
    bin: Option<&[u8]>,
    rest: &[u8],
) -> Result<Vec<u8>, NoMemory>
    requires fits { glb_len (length json.now) (option_map (λ b. length b.now) bin) (length rest.now) < 2 ^ 32 }
    requires rest { AreWholeChunks rest.now }
    ensures { IfOk result (λ out. out.items ≡ glb json.now (option_map (λ b. b.now) bin.entry) rest.now) }
{
    let total = joined_len(json.len() as u64, len_of(bin), rest.len() as u64);
    let mut out = Vec::with_capacity(alloc, total as usize)?;
    put_header(&mut out, total as u32)?;
    put_chunk(&mut out, JSON, json, b' ')?;
    put_bin(&mut out, bin)?;
    out.extend_from_slice(rest)?;
    Ok(out)
}
