// Unpacking.
ghost use Rattle.std.specs.Prelude.{◌≡◌, ℕ, ◌<◌, ◌^◌, List, length, option_map};
ghost use Rattle.gp_glb.specs.Container.{AreWholeChunks};
ghost use Rattle.gp_layout.specs.Layout.{laid};
ghost use Rattle.gp_layout.specs.Row.{laid_buffer};
ghost use Rattle.gp_document.specs.Answers.{AnswersOrMemory, IsOnlyAnswer};
ghost use Rattle.gp_document.specs.Reading.{document_of};
ghost use Rattle.gp_document.specs.Writing.{Writes, Finishes};
ghost use Rattle.gp_unpack.specs.Contents.{HaveShapes};
ghost use Rattle.gp_unpack.specs.Unpacked.{former_streams, unpacked_or, unpacking, made_of};

use crate::contents::Contents;
use crate::decoding::decode_views;
use crate::editing::edit_tree;
use gp_asset::{Asset, Form, Refusal};
use gp_document::{Accepted, Document, Output, accept, write_document};
use std::alloc::Global;

/// Unpacks a GLB or a glTF text (glTF 2.0 and EXT_meshopt_compression): the GLB whose views are all plain, or the input's
/// first fault. Want of memory is the one other answer.
pub fn unpack(alloc: Global, bytes: &[u8]) -> Result<Output, Refusal>
    ensures answers { AnswersOrMemory unpacking bytes.now result }
    ensures only { IsOnlyAnswer unpacking bytes.now result }
{
    match accept(alloc, bytes, Form::Any) {
        Ok(accepted) => unpack_accepted(alloc, accepted),
        Err(refusal) => Err(refusal),
    }
}

// Unpacks a document whose asset has no fault.
fn unpack_accepted(alloc: Global, accepted: Accepted<'_>) -> Result<Output, Refusal>
    requires shapes { HaveShapes accepted.asset.views }
    requires rest { AreWholeChunks accepted.document.rest.now }
    requires few { length accepted.asset.views < 2 ^ 32 }
    ensures { Finishes (unpacked_or (document_of accepted.entry.document) accepted.entry.asset) result }
{
    let Accepted { document, asset } = accepted;
    let views = asset.views().len() as u32;
    let streams = former_streams(&asset);
    match decode_views(alloc, &asset) {
        Ok(contents) => write_unpacked(alloc, document, contents, views, streams),
        Err(refusal) => Err(refusal),
    }
}

// How many views have a compressed form.
#[tactic(auto, unfolding(crate::specs::Unpacked::former_streams))]
fn former_streams(asset: &Asset<'_>) -> u32
    requires { length asset.now.views < 2 ^ 32 }
    ensures { result ≡ former_streams asset.now }
{
    asset
        .views()
        .iter()
        .filter(|view| view.packed.is_some())
        .count() as u32
}

// Writes a document with these contents of its views.
fn write_unpacked(
    alloc: Global,
    document: Document<'_>,
    contents: Contents,
    views: u32,
    streams: u32,
) -> Result<Output, Refusal>
    requires { AreWholeChunks document.rest.now }
    ensures { Writes (made_of contents (document_of document.entry) views streams) result }
{
    let mut tree = document.tree;
    edit_tree(alloc, &mut tree, &contents)?;
    let count = contents.len();
    let buffer = contents.into_buffer();
    write_document(
        alloc,
        tree,
        bin_of(&buffer, count),
        document.rest,
        views,
        streams,
    )
}

// The BIN chunk of a buffer of so many views; none where there are no views.
fn bin_of(buffer: &[u8], views: usize) -> Option<&[u8]>
    ensures { (contents : List (List ℕ)) → views ≡ length contents → buffer.now ≡ laid contents → option_map (λ b. b.now) result ≡ laid_buffer contents }
{
    if views == 0 {
        return None;
    }
    Some(buffer)
}
