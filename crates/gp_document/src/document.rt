// What a file holds.
ghost use Rattle.std.specs.Prelude.{IfOk, IfErr};
ghost use Rattle.gp_document.specs.Reading.{HoldsDocument, IsTextFaultOrMemory, TellsContainerFault};

use gp_asset::Refusal;
use gp_glb::split;
use gp_json::read;
use gp_tree::Tree;
use std::alloc::Global;

/// A JSON tree, the BIN chunk, and the chunks behind them with their headers (glTF 2.0, GLB file format).
#[derive(Drop)]
pub struct Document<'a> {
    /// What the JSON text says.
    pub tree: Tree,
    /// The BIN chunk with its padding, where there is one.
    pub bin: Option<&'a [u8]>,
    /// All chunks behind JSON and BIN, with their headers.
    pub rest: &'a [u8],
}

/// Reads a GLB or a glTF text, or tells the fault of its container or of its JSON. Want of memory is the one other answer,
/// and never where the container has a fault.
pub fn read_document(alloc: Global, bytes: &[u8]) -> Result<Document<'_>, Refusal>
    ensures holds { IfOk result (HoldsDocument bytes.now) }
    ensures refused { IfErr result (IsTextFaultOrMemory bytes.now) }
    ensures told { TellsContainerFault bytes.now result }
{
    let chunks = split(bytes)?;
    let tree = read(alloc, chunks.json)?;
    Ok(Document {
        tree,
        bin: chunks.bin,
        rest: chunks.rest,
    })
}
