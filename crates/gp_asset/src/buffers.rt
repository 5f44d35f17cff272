// The bytes of buffers (glTF 2.0, sections 3.6.1 and 5.10).
ghost use Rattle.std.specs.Prelude.{◌≡◌, not, map, option_map};
ghost use Rattle.std.specs.List.{list_all};
ghost use Rattle.gp_tree.specs.Key.{units};
ghost use Rattle.gp_tree.specs.Plain.{plain, plain_member};
ghost use Rattle.gp_tree.specs.Find.{object_members};
ghost use Rattle.gp_tree.specs.Values.{ascii_of};
ghost use Rattle.gp_fields.specs.Fields.{key_of};
ghost use Rattle.gp_rules.specs.declared.fault.AssetFault.TheVariants.{Buffer};
ghost use Rattle.gp_rules.specs.Checks.{each, unless, Answers};
ghost use Rattle.gp_asset.specs.Buffers.{is_marker, stored_bytes, bytes_if, bytes_of_uri, buffer_of};
ghost use Rattle.gp_asset.specs.Stored.{bytes_in, shown, present};

use crate::needed::needed_buffers;
use gp_fields::{BufferFields, ViewFields};
use gp_glb::{UriFault, data_uri};
use gp_rules::{AssetFault, AssetRefusal};
use gp_tree::{Lexeme, Member, Tree, key_is};
use std::alloc::Global;

// The bytes of a buffer, where they are needed: the BIN chunk or a decoded data URI.
#[derive(Drop)]
pub(crate) enum BufferBytes<'a> {
    Unneeded,
    Chunk(&'a [u8]),
    Decoded(Vec<u8>),
}

impl<'a> BufferBytes<'a> {
    /// The bytes; none where they aren't needed.
    pub(crate) fn as_slice(&self) -> &[u8]
        ensures { result.now ≡ shown self.now }
    {
        match self {
            BufferBytes::Unneeded => &[],
            BufferBytes::Chunk(bytes) => bytes,
            BufferBytes::Decoded(bytes) => bytes.as_slice(),
        }
    }
}

/// The bytes of the buffers of an asset, or the first fault of one.
pub(crate) fn read_buffers<'a>(
    alloc: Global,
    buffers: &[BufferFields<'_>],
    views: &[ViewFields<'_>],
    bin: Option<&'a [u8]>,
) -> Result<Vec<BufferBytes<'a>>, AssetRefusal>
    ensures { Answers (each (buffer_of views.now (option_map (λ b. b.now) bin.entry)) 0 buffers.now) (λ v. map bytes_in v.items) result }
{
    let Ok(needed) = needed_buffers(alloc, views, buffers.len()) else {
        return Err(AssetRefusal::Memory);
    };
    let mut read = Vec::new(alloc);
    'buffers: for at in 0..buffers.len() {
        let bytes = read_buffer(alloc, &buffers[at], at, needed[at], bin)?;
        if read.push(bytes).is_err() {
            return Err(AssetRefusal::Memory);
        }
    }
    Ok(read)
}

// The bytes of buffer `at` where they are needed.
fn read_buffer<'a>(
    alloc: Global,
    buffer: &BufferFields<'_>,
    at: usize,
    needed: bool,
    bin: Option<&'a [u8]>,
) -> Result<BufferBytes<'a>, AssetRefusal>
    ensures { Answers (unless (not (list_all is_marker buffer.now.extensions)) (Buffer at) (bytes_if needed (option_map (λ b. b.now) bin.entry) at buffer.now)) bytes_in result }
{
    if has_other_extension(buffer) {
        return Err(AssetRefusal::Fault(AssetFault::Buffer { at }));
    }
    if !needed {
        return Ok(BufferBytes::Unneeded);
    }
    let bytes = stored_bytes(alloc, buffer.uri, at, bin)?;
    if bytes.as_slice().len() < buffer.length as usize {
        return Err(AssetRefusal::Fault(AssetFault::Buffer { at }));
    }
    Ok(bytes)
}

// Whether a buffer has an extension other than EXT_meshopt_compression, which marks a fallback buffer.
fn has_other_extension(buffer: &BufferFields<'_>) -> bool
    ensures { result ≡ not (list_all is_marker buffer.now.extensions) }
{
    match buffer.extensions {
        None => false,
        Some(extensions) => !has_only_markers(extensions),
    }
}

// Whether each extension in this object is EXT_meshopt_compression.
fn has_only_markers(extensions: &Tree) -> bool
    ensures { result ≡ list_all is_marker (map key_of (object_members (plain extensions.now))) }
{
    match extensions {
        Tree::Members(members) => are_markers(members.as_slice()),
        _ => true,
    }
}

// Whether each member is named EXT_meshopt_compression.
fn are_markers(members: &[Member]) -> bool
    ensures { result ≡ list_all (λ m. is_marker (key_of (plain_member m))) members.now }
{
    members.iter().all(|member| is_marker(member))
}

// Whether a member is named EXT_meshopt_compression.
fn is_marker(member: &Member) -> bool
    ensures { result ≡ is_marker (key_of (plain_member member.now)) }
{
    key_is(&member.key, "EXT_meshopt_compression")
}

// Those of the `uri` where there is one, else of the BIN chunk for buffer 0.
fn stored_bytes<'a>(
    alloc: Global,
    uri: Option<&Lexeme>,
    at: usize,
    bin: Option<&'a [u8]>,
) -> Result<BufferBytes<'a>, AssetRefusal>
    ensures { Answers (present (stored_bytes (option_map (λ b. b.now) bin.entry) at (option_map (λ s. s.now) uri.entry))) bytes_in result }
{
    match (uri, bin) {
        (Some(uri), _) => Ok(BufferBytes::Decoded(bytes_of_uri(alloc, uri, at)?)),
        (None, Some(bytes)) if at == 0 => Ok(BufferBytes::Chunk(bytes)),
        (None, _) => Err(AssetRefusal::Fault(AssetFault::Buffer { at })),
    }
}

// The bytes of a data URI.
fn bytes_of_uri(alloc: Global, uri: &Lexeme, at: usize) -> Result<Vec<u8>, AssetRefusal>
    ensures { Answers (bytes_of_uri at (ascii_of (units uri.now))) (λ v. v.items) result }
{
    let Some(text) = uri.ascii(alloc).map_err(|_| AssetRefusal::Memory)? else {
        return Err(AssetRefusal::Fault(AssetFault::Scheme { at }));
    };
    match data_uri(alloc, &text) {
        Ok(bytes) => Ok(bytes),
        Err(UriFault::Scheme) => Err(AssetRefusal::Fault(AssetFault::Scheme { at })),
        Err(UriFault::Base64) => Err(AssetRefusal::Fault(AssetFault::Base64 { at })),
        Err(UriFault::Memory) => Err(AssetRefusal::Memory),
    }
}
