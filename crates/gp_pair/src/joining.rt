// The contents of external buffers in their document (glTF 2.0, sections 3.6.1.1 and 4.4).
ghost use Rattle.std.specs.Prelude.{◌≡◌, IfOk, OnOk, option_map, string_bytes};
ghost use Rattle.gp_tree.specs.Plain.{plain, text as a_text};
ghost use Rattle.gp_pair.specs.Joined.{data_uri, content_at, holding, joined_tree, joined_bin};

use base64::engine::general_purpose::STANDARD;
use gp_host::{Bytes, NoMemory};
use gp_moves::{EachItem, ItemEdits, edit_member};
use gp_tree::Tree;
use std::alloc::Global;

// The contents of buffers, and whether they are those of a text.
#[derive(Drop)]
struct Joins<'a> {
    of_text: bool,
    contents: &'a [Option<Bytes>],
}

impl<'a> ItemEdits for Joins<'a> {
    ghost use Rattle.gp_pair.specs.Joined.{joined_buffer};

    ghost change = { λ joins at buffer. joined_buffer joins.of_text joins.contents.now at buffer };

    fn edit(&self, alloc: Global, at: usize, item: &mut Tree) -> Result<(), NoMemory> {
        match content_at(self.contents, at) {
            Some(bytes) => hold(alloc, item, self.of_text & (at == 0), bytes),
            None => Ok(()),
        }
    }
}

// The content of a buffer, where it is external.
fn content_at(contents: &[Option<Bytes>], at: usize) -> Option<&[u8]>
    ensures { option_map (λ b. b.now) result ≡ content_at contents.now at }
{
    match contents.get(at) {
        Some(Some(bytes)) => Some(bytes.as_slice()),
        _ => None,
    }
}

// Says that a buffer has these bytes in the BIN chunk, or in its own `uri`.
fn hold(alloc: Global, buffer: &mut Tree, in_chunk: bool, bytes: &[u8]) -> Result<(), NoMemory>
    ensures { OnOk result (plain buffer.new ≡ holding in_chunk bytes.now (plain buffer.old)) }
{
    if in_chunk {
        buffer.remove("uri");
        return Ok(());
    }
    buffer.set(alloc, "uri", data_uri(alloc, bytes)?)
}

// A data URI of these bytes in padded base64 (RFC 2397; RFC 4648, section 4).
#[tactic(auto, unfolding(crate::specs::Joined::data_uri))]
fn data_uri(alloc: Global, bytes: &[u8]) -> Result<Tree, NoMemory>
    ensures { IfOk result (λ t. plain t ≡ a_text (data_uri bytes.now)) }
{
    let mut uri = String::from_str(alloc, "data:application/octet-stream;base64,")?;
    STANDARD.encode_string(bytes, &mut uri)?;
    Tree::text(alloc, &uri)
}

/// Gives each external buffer of a root its bytes: the first one of a text those of the BIN chunk, any other a data URI.
#[tactic(auto, unfolding(crate::specs::Joined::joined_tree))]
pub(crate) fn join_tree(
    alloc: Global,
    root: &mut Tree,
    of_text: bool,
    contents: &[Option<Bytes>],
) -> Result<(), NoMemory>
    ensures { OnOk result (plain root.new ≡ joined_tree of_text contents.now (plain root.old)) }
{
    let joins = Joins { of_text, contents };
    edit_member(alloc, root, "buffers", &EachItem { edits: &joins })
}

/// The bytes of the BIN chunk: those of the first buffer of a text, where it is external, else those that were there.
#[tactic(auto, unfolding(crate::specs::Joined::joined_bin))]
pub(crate) fn joined_bin<'a>(
    of_text: bool,
    contents: &'a [Option<Bytes>],
    bin: Option<&'a [u8]>,
) -> Option<&'a [u8]>
    ensures { option_map (λ b. b.now) result ≡ joined_bin of_text contents.now (option_map (λ b. b.now) bin.entry) }
{
    if !of_text {
        return bin;
    }
    match content_at(contents, 0) {
        Some(bytes) => Some(bytes),
        None => bin,
    }
}
