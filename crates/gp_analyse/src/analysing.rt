// Analysis.
ghost use Rattle.std.specs.Prelude.{◌≡◌, Ok};
ghost use Rattle.gp_asset.specs.declared.purpose.Form.TheVariants.{Any};
ghost use Rattle.gp_document.specs.Accepted.{asset_of};
ghost use Rattle.gp_document.specs.Reading.{document_of};
ghost use Rattle.gp_unpack.specs.Contents.{Answers};
ghost use Rattle.gp_analyse.specs.Reports.{text_of, ReportsOrMemory, IsOnlyReport};

use crate::reporting::report;
use gp_asset::{Form, Refusal};
use gp_document::{Accepted, accept};
use gp_host::Bytes;
use gp_unpack::decode_views;
use std::alloc::Global;

/// Analyses a GLB or a glTF text (glTF 2.0 and EXT_meshopt_compression): the text of its analysis, or the input's first
/// fault. Want of memory is the one other answer.
pub fn analyse(alloc: Global, bytes: &[u8]) -> Result<Bytes, Refusal>
    ensures answers { ReportsOrMemory bytes.now result }
    ensures only { IsOnlyReport bytes.now result }
{
    match accept(alloc, bytes, Form::Any) {
        Ok(accepted) => analyse_accepted(alloc, accepted),
        Err(refusal) => Err(refusal),
    }
}

// Analyses a document whose asset has no fault.
fn analyse_accepted(alloc: Global, accepted: Accepted<'_>) -> Result<Bytes, Refusal>
    requires { asset_of Any (document_of accepted.document) ≡ Ok accepted.asset }
    ensures { Answers (text_of accepted.entry.asset) result }
{
    let Accepted { document, asset } = accepted;
    // The tree is many times its text: it goes before the views are decoded.
    drop(document);
    match decode_views(alloc, &asset) {
        Ok(contents) => {
            let text = report(alloc, &asset, &contents)?;
            Ok(Bytes::from_vec(text))
        }
        Err(faulty) => Err(faulty),
    }
}
