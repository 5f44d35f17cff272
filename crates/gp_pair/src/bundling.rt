// A file and the files of its external buffers, joined to one container.
ghost use Rattle.std.specs.Prelude.{◌≡◌, ◌≢◌, ◌⊎◌, ◌+◌, ◌≤◌, ◌^◌, Err, IsErrOf};
ghost use Rattle.gp_host.specs.Causes.{Rose};
ghost use Rattle.gp_tree.specs.Plain.{plain};
ghost use Rattle.gp_glb.specs.Container.{AreWholeChunks};
ghost use Rattle.gp_document.specs.Reading.{document_of};
ghost use Rattle.gp_pair.specs.External.{files_of};
ghost use Rattle.gp_pair.specs.Joined.{joined};
ghost use Rattle.gp_pair.specs.Taking.{contents_len};
ghost use Rattle.gp_pair.specs.Bundle.{IsTaken, Bundles, Stops, IsOnlyAnswer};
ghost use Rattle.gp_pair.specs.Answers.{Asks, Takes, TakesInput, IsSmall, Joins};

use crate::external::files_of;
use crate::joining::{join_tree, joined_bin};
use crate::refusal::{refusal_of_take, refusal_of_text};
use crate::taking::{Contents, take_files};
use crate::text::is_text;
use crate::{BundleRefusal, Bundled};
use gp_asset::Refusal;
use gp_document::{Document, read_document};
use gp_folder::Folder;
use gp_glb::{GlbFault, join};
use gp_host::Bytes;
use gp_json::print;
use gp_tree::Tree;
use std::alloc::Global;

// The most bytes that the file and the files of its buffers have in all.
const MOST_BYTES: usize = 1 << 29;

// The most bytes that a JSON text may have.
const MOST_JSON: usize = 1 << 26;

/// Takes a GLB or a glTF text from a folder, with the files of its external buffers, and joins them to one GLB (glTF 2.0,
/// sections 3.6.1.1 and 4.4). The first buffer of a text goes into the BIN chunk, any other external one into a data URI.
///
/// The file is taken first, its faults are told next, then the files of its buffers are taken by rising number, and at last the
/// JSON with all of them in it may be too large. A take is asked for no more bytes than are left of 2^29. No file is changed.
pub fn bundle<F: Folder>(
    alloc: Global,
    folder: &mut F,
    name: &str,
) -> Result<Bundled, BundleRefusal>
    ensures answers { Bundles (F.state folder.old).files name.now result ⊎ Stops result }
    ensures only { IsOnlyAnswer (F.state folder.old).files name.now result }
    ensures files { (F.state folder.new).files ≡ (F.state folder.old).files }
    ensures later { (F.state folder.old).faults ≤ (F.state folder.new).faults }
    ensures failed { IsErrOf result BundleRefusal.Failed → Rose (F.state folder.old).faults (F.state folder.new).faults }
    ensures kept { result ≢ Err BundleRefusal.Failed → (F.state folder.new).faults ≡ (F.state folder.old).faults }
{
    bundle_once(alloc, folder, name)
}

// The same answer.
fn bundle_once<F: Folder>(
    alloc: Global,
    folder: &mut F,
    name: &str,
) -> Result<Bundled, BundleRefusal>
    ensures answers { Bundles (F.state folder.old).files name.now result ⊎ Stops result }
    ensures asks { Asks (F.state folder.old) (F.state folder.new) result }
{
    match take_input(alloc, folder, name) {
        Ok(bytes) => bundle_bytes(alloc, folder, name, bytes.as_slice()),
        Err(refusal) => Err(refusal),
    }
}

// Takes the file.
fn take_input<F: Folder>(alloc: Global, folder: &mut F, name: &str) -> Result<Bytes, BundleRefusal>
    ensures answers { TakesInput (F.state folder.old).files name.now result }
    ensures asks { Asks (F.state folder.old) (F.state folder.new) result }
{
    match folder.take(alloc, name, MOST_BYTES) {
        Ok(bytes) => Ok(bytes),
        Err(refusal) => Err(refusal_of_take(None, refusal)),
    }
}

// Reads what was taken, takes the files of its buffers, and joins them.
fn bundle_bytes<F: Folder>(
    alloc: Global,
    folder: &mut F,
    name: &str,
    bytes: &[u8],
) -> Result<Bundled, BundleRefusal>
    requires { IsTaken (F.state folder.old).files name.now bytes.now }
    ensures answers { Bundles (F.state folder.old).files name.now result ⊎ Stops result }
    ensures asks { Asks (F.state folder.old) (F.state folder.new) result }
{
    let document = match read_document(alloc, bytes) {
        Ok(document) => document,
        Err(refusal) => return Err(refusal_of_text(refusal)),
    };
    let limit = MOST_BYTES - bytes.len();
    let contents = match take_contents(alloc, folder, name, &document.tree, limit) {
        Ok(contents) => contents,
        Err(refusal) => return Err(refusal),
    };
    join_document(alloc, document, is_text(bytes), bytes.len(), &contents)
}

// Takes the files of the external buffers of a root, by rising number.
fn take_contents<F: Folder>(
    alloc: Global,
    folder: &mut F,
    name: &str,
    root: &Tree,
    limit: usize,
) -> Result<Contents, BundleRefusal>
    requires { limit ≤ 2 ^ 29 }
    ensures answers { Takes (F.state folder.old).files (files_of name.now (plain root.now)) limit result }
    ensures asks { Asks (F.state folder.old) (F.state folder.new) result }
{
    let Ok(names) = files_of(alloc, name, root) else {
        return Err(BundleRefusal::Memory);
    };
    take_files(alloc, folder, &names, limit)
}

// Joins a document and the contents of its external buffers to a container; `len` bytes were taken for the document.
fn join_document(
    alloc: Global,
    document: Document<'_>,
    of_text: bool,
    len: usize,
    contents: &Contents,
) -> Result<Bundled, BundleRefusal>
    requires rest { AreWholeChunks document.rest.now }
    requires small { IsSmall (document_of document) }
    requires counted { contents.now.count ≡ contents_len contents.now.contents.items }
    requires within { len + contents.now.count ≤ 2 ^ 29 }
    ensures { Joins (joined of_text contents.now.contents.items (document_of document.entry)) (len + contents.now.count) result }
{
    let mut tree = document.tree;
    if join_tree(alloc, &mut tree, of_text, &contents.contents).is_err() {
        return Err(BundleRefusal::Memory);
    }
    let Ok(json) = print(alloc, &tree) else {
        return Err(BundleRefusal::Memory);
    };
    // The tree is many times its text: it goes before the container is made.
    drop(tree);
    if json.len() > MOST_JSON {
        return Err(BundleRefusal::Bad(Refusal::Glb(GlbFault::JsonTooLarge)));
    }
    let bin = joined_bin(of_text, &contents.contents, document.bin);
    let Ok(glb) = join(alloc, &json, bin, document.rest) else {
        return Err(BundleRefusal::Memory);
    };
    Ok(Bundled {
        glb: Bytes::from_vec(glb),
        taken: (len + contents.count) as u64,
    })
}
