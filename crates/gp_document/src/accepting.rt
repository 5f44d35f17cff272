// Which files are accepted.
ghost use Rattle.std.specs.Prelude.{IfOk, IfErr};
ghost use Rattle.gp_document.specs.Reading.{IsAcceptedAs, IsInputFaultOrMemory, TellsContainerFault};

use crate::document::{Document, read_document};
use gp_asset::{Asset, Form, Refusal, read_asset};
use std::alloc::Global;

/// A document and the asset that it stands for.
#[derive(Drop)]
pub struct Accepted<'a> {
    pub document: Document<'a>,
    pub asset: Asset<'a>,
}

/// Reads a GLB or a glTF text and its asset in a form, or tells the first fault of the container, of its JSON or of the
/// asset. Want of memory is the one other answer, and never where the container has a fault.
#[tactic(auto, unfolding(crate::specs::Accepted::asset_of))]
pub fn accept(alloc: Global, bytes: &[u8], form: Form) -> Result<Accepted<'_>, Refusal>
    ensures accepted { IfOk result (IsAcceptedAs form bytes.now) }
    ensures refused { IfErr result (IsInputFaultOrMemory form bytes.now) }
    ensures told { TellsContainerFault bytes.now result }
{
    let document = match read_document(alloc, bytes) {
        Ok(document) => document,
        Err(refusal) => return Err(refusal),
    };
    match read_asset(alloc, &document.tree, document.bin, form) {
        Ok(asset) => Ok(Accepted { document, asset }),
        Err(refusal) => Err(Refusal::from(refusal)),
    }
}
