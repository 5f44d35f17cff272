// A container put as two files.
ghost use Rattle.std.specs.Prelude.{◌≡◌, ◌≢◌, ◌≤◌, ◌<◌, ◌^◌, ◌++◌, Err, IfOk, OnOk, IsErrOf, option_map, string_bytes};
ghost use Rattle.gp_host.specs.Causes.{Rose};
ghost use Rattle.gp_tree.specs.Plain.{PlainTree, plain};
ghost use Rattle.gp_tree.specs.Sound.{IsSound};
ghost use Rattle.gp_json.specs.Spelling.{Spells};
ghost use Rattle.gp_json.specs.Text.{text_of};
ghost use Rattle.gp_document.specs.Document.{Document, Holds};
ghost use Rattle.gp_pair.specs.Pair.{with_bin_uri, pair_tree, bin_len, PutsPair};
ghost use Rattle.gp_pair.specs.Answers.{Counts, PutsBin, PutsText, PutsFiles};

use crate::container::{JsonAndBin, json_and_bin};
use gp_folder::{Folder, PutRefusal};
use gp_host::NoMemory;
use gp_json::{print, read};
use gp_moves::{EachItem, ItemEdits, edit_member};
use gp_tree::Tree;
use std::alloc::Global;

/// The compact text of a root whose first buffer has its bytes in the file `stem.bin` (glTF 2.0, section 3.6.1.1). A root
/// whose list `buffers` has no object first stays as it is. After `Err` the tree may have the `uri` already, or not.
pub fn text_of(alloc: Global, tree: &mut Tree, stem: &str) -> Result<Vec<u8>, NoMemory>
    ensures text { IfOk result (λ v. v.items ≡ text_of (with_bin_uri stem.now (plain tree.old))) }
    ensures tree { OnOk result (plain tree.new ≡ with_bin_uri stem.now (plain tree.old)) }
{
    name_bin(alloc, tree, stem)?;
    print(alloc, tree)
}

// Says that the first buffer of a root has its bytes in the file `stem.bin`.
#[tactic(auto, unfolding(crate::specs::Pair::with_bin_uri))]
fn name_bin(alloc: Global, root: &mut Tree, stem: &str) -> Result<(), NoMemory>
    ensures { OnOk result (plain root.new ≡ with_bin_uri stem.now (plain root.old)) }
{
    let uri = BinUri { stem };
    edit_member(alloc, root, "buffers", &EachItem { edits: &uri })
}

// The `uri` of a first buffer.
#[derive(Drop)]
struct BinUri<'a> {
    stem: &'a str,
}

impl<'a> ItemEdits for BinUri<'a> {
    ghost use Rattle.gp_pair.specs.Pair.{bin_uri};

    ghost change = { λ uri at buffer. bin_uri uri.stem.now at buffer };

    fn edit(&self, alloc: Global, at: usize, item: &mut Tree) -> Result<(), NoMemory> {
        if at > 0 {
            return Ok(());
        }
        let name = with_ending(alloc, self.stem, ".bin")?;
        item.set(alloc, "uri", Tree::text(alloc, &name)?)
    }
}

// A stem with the ending of a file's name.
fn with_ending(alloc: Global, stem: &str, ending: &str) -> Result<String, NoMemory>
    ensures { IfOk result (λ name. string_bytes name ≡ stem.now ++ ending.now) }
{
    let mut name = String::from_str(alloc, stem)?;
    name.push_str(ending)?;
    Ok(name)
}

/// Puts a container into a folder as two files: its BIN chunk, where there is one, as `stem.bin`, and then its JSON as
/// `stem.gltf`, whose first buffer names that file (glTF 2.0, section 3.6.1.1). Gives the number of bytes that were put.
///
/// The chunks behind JSON and BIN have no place in a text, and aren't put. A put that fails may leave a front of its file, and
/// leaves those put before it.
pub fn put_pair<F: Folder>(
    alloc: Global,
    folder: &mut F,
    stem: &str,
    glb: &[u8],
) -> Result<u64, PutRefusal>
    requires { (document : Document) × Holds glb.now document }
    ensures puts { (document : Document) → Holds glb.now document → PutsPair stem.now document (F.state folder.old).files (F.state folder.new).files result }
    ensures later { (F.state folder.old).faults ≤ (F.state folder.new).faults }
    ensures failed { IsErrOf result PutRefusal.Failed → Rose (F.state folder.old).faults (F.state folder.new).faults }
    ensures kept { result ≢ Err PutRefusal.Failed → (F.state folder.new).faults ≡ (F.state folder.old).faults }
{
    let parts = json_and_bin(glb);
    let Ok(text) = pair_text(alloc, stem, parts) else {
        return Err(PutRefusal::Memory);
    };
    put_files(alloc, folder, stem, &text, parts.bin)
}

// The text of a container's document, whose BIN chunk, where there is one, is in the file `stem.bin`.
fn pair_text(alloc: Global, stem: &str, parts: JsonAndBin<'_>) -> Result<Vec<u8>, NoMemory>
    ensures { (t : PlainTree) → Spells parts.entry.json.now t → IsSound t
        → IfOk result (λ v. v.items ≡ text_of (pair_tree stem.now (option_map (λ b. b.now) parts.entry.bin) t)) }
{
    let Ok(mut tree) = read(alloc, parts.json) else {
        return Err(NoMemory);
    };
    match parts.bin {
        Some(_) => text_of(alloc, &mut tree, stem),
        None => print(alloc, &tree),
    }
}

// Puts the bytes of a BIN chunk, where there is one, and then a text.
fn put_files<F: Folder>(
    alloc: Global,
    folder: &mut F,
    stem: &str,
    text: &[u8],
    bin: Option<&[u8]>,
) -> Result<u64, PutRefusal>
    ensures puts { PutsFiles stem.now text.now (option_map (λ b. b.now) bin.entry) (F.state folder.old).files (F.state folder.new).files result }
    ensures counts { Counts (F.state folder.old) (F.state folder.new) result }
{
    match put_bin(alloc, folder, stem, bin) {
        Ok(()) => {}
        Err(refusal) => return Err(refusal),
    }
    match put_text(alloc, folder, stem, text) {
        Ok(()) => Ok(text.len() as u64 + bin_len(bin)),
        Err(refusal) => Err(refusal),
    }
}

// How many bytes a BIN chunk has, where there is one.
fn bin_len(bin: Option<&[u8]>) -> u64
    ensures value { result ≡ bin_len (option_map (λ b. b.now) bin.entry) }
    ensures small { result < 2 ^ 63 }
{
    match bin {
        Some(bytes) => bytes.len() as u64,
        None => 0,
    }
}

// Puts the bytes of a BIN chunk, where there is one.
fn put_bin<F: Folder>(
    alloc: Global,
    folder: &mut F,
    stem: &str,
    bin: Option<&[u8]>,
) -> Result<(), PutRefusal>
    ensures puts { PutsBin stem.now (option_map (λ b. b.now) bin.entry) (F.state folder.old).files (F.state folder.new).files result }
    ensures counts { Counts (F.state folder.old) (F.state folder.new) result }
{
    let Some(bytes) = bin else {
        return Ok(());
    };
    let Ok(name) = with_ending(alloc, stem, ".bin") else {
        return Err(PutRefusal::Memory);
    };
    folder.put(alloc, &name, bytes)
}

// Puts a text.
fn put_text<F: Folder>(
    alloc: Global,
    folder: &mut F,
    stem: &str,
    text: &[u8],
) -> Result<(), PutRefusal>
    ensures puts { PutsText stem.now text.now (F.state folder.old).files (F.state folder.new).files result }
    ensures counts { Counts (F.state folder.old) (F.state folder.new) result }
{
    let Ok(name) = with_ending(alloc, stem, ".gltf") else {
        return Err(PutRefusal::Memory);
    };
    folder.put(alloc, &name, text)
}
