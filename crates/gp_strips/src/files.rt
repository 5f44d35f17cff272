// Lists of triangles in files.
ghost use Rattle.std.specs.Prelude.{◌≡◌, ◌+◌, ℕ, List, Ok, IfOk, length, option_map};
ghost use Rattle.gp_asset.specs.declared.purpose.Form.TheVariants.{Any};
ghost use Rattle.gp_document.specs.Accepted.{asset_of};
ghost use Rattle.gp_document.specs.Answers.{AnswersOrMemory, IsOnlyAnswer};
ghost use Rattle.gp_document.specs.Reading.{document_of};
ghost use Rattle.gp_document.specs.Writing.{Writes, Finishes};
ghost use Rattle.gp_glb.specs.Container.{AreWholeChunks};
ghost use Rattle.gp_layout.specs.Layout.{laid};
ghost use Rattle.gp_layout.specs.Row.{laid_buffer, buffer_length};
ghost use Rattle.gp_unpack.specs.Contents.{all_contents};
ghost use Rattle.gp_strips.specs.Answers.{ListsOrMemory, IsOnlyListing};
ghost use Rattle.gp_strips.specs.ListedDocument.{listing, listed_or, made_of};

use crate::editing::edit_listed;
use crate::making::{MadeLists, make_lists, number_of, sum};
use gp_asset::{Asset, Form, Refusal};
use gp_document::{Accepted, Document, Output, accept, write_document};
use gp_edits::set_buffers;
use gp_host::Bytes;
use gp_unpack::{Contents, decode_views};
use std::alloc::Global;

/// A GLB in which strips and fans are lists.
#[derive(Drop)]
pub struct ListsOut {
    /// The GLB.
    pub glb: Bytes,
    /// How many strips and fans became lists.
    pub listed: u32,
}

/// Makes lists of triangles of the strips and fans of a GLB or a glTF text (glTF 2.0 and EXT_meshopt_compression): the GLB in which
/// each that can be is one, and whose views are all plain, or the input's first fault. Want of memory is the one other answer.
///
/// The time grows with the input and with the output; in memory are the tree, the contents of all views and the lists.
pub fn lists(alloc: Global, bytes: &[u8]) -> Result<ListsOut, Refusal>
    ensures answers { ListsOrMemory bytes.now result }
    ensures only { IsOnlyListing bytes.now result }
{
    match list_file(alloc, bytes) {
        Ok(output) => Ok(ListsOut {
            glb: output.glb,
            listed: output.packed,
        }),
        Err(refusal) => Err(refusal),
    }
}

// The same, with the number of views.
fn list_file(alloc: Global, bytes: &[u8]) -> Result<Output, Refusal>
    ensures answers { AnswersOrMemory listing bytes.now result }
    ensures only { IsOnlyAnswer listing bytes.now result }
{
    match accept(alloc, bytes, Form::Any) {
        Ok(accepted) => list_accepted(alloc, accepted),
        Err(refusal) => Err(refusal),
    }
}

// Of a document whose asset has no fault.
fn list_accepted(alloc: Global, accepted: Accepted<'_>) -> Result<Output, Refusal>
    requires asset { asset_of Any (document_of accepted.document) ≡ Ok accepted.asset }
    requires rest { AreWholeChunks accepted.document.rest.now }
    ensures { Finishes (listed_or (document_of accepted.entry.document) accepted.entry.asset) result }
{
    let Accepted { document, asset } = accepted;
    match decode_views(alloc, &asset) {
        Ok(contents) => write_listed(alloc, document, &asset, contents),
        Err(refusal) => Err(refusal),
    }
}

// Writes a document with lists, of an asset with these contents of its views.
fn write_listed(
    alloc: Global,
    document: Document<'_>,
    asset: &Asset<'_>,
    contents: Contents,
) -> Result<Output, Refusal>
    requires asset { asset_of Any (document_of document) ≡ Ok asset.now }
    requires contents { all_contents asset.now ≡ Ok contents }
    requires rest { AreWholeChunks document.rest.now }
    ensures { Writes (made_of asset.now contents (document_of document.entry)) result }
{
    let lists = make_lists(alloc, asset, &contents, contents.buffer().len())?;
    let listed = number_of(lists.row.len())?;
    let views = number_of(sum(contents.len(), lists.row.len())?)?;
    let mut tree = document.tree;
    edit_listed(alloc, &mut tree, &contents, &lists)?;
    let buffer = lists.row.behind(contents)?;
    let bin = bin_of(&buffer, views);
    set_buffers(alloc, &mut tree, length_of(bin), None)?;
    write_document(alloc, tree, bin, document.rest, views, listed)
}

// The BIN chunk of a buffer of so many views; none where there are no views.
fn bin_of(buffer: &[u8], views: u32) -> Option<&[u8]>
    ensures { (contents : List (List ℕ)) → views ≡ length contents → buffer.now ≡ laid contents → option_map (λ b. b.now) result ≡ laid_buffer contents }
{
    if views == 0 {
        return None;
    }
    Some(buffer)
}

// How many bytes the one buffer has, where there is one.
fn length_of(bin: Option<&[u8]>) -> Option<u64>
    ensures { (contents : List (List ℕ)) → option_map (λ b. b.now) bin.entry ≡ laid_buffer contents → result ≡ buffer_length contents }
{
    match bin {
        Some(buffer) => Some(buffer.len() as u64),
        None => None,
    }
}
