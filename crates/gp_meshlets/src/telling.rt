// The meshlets of an asset, as a text.
ghost use Rattle.std.specs.Prelude.{◌≡◌, Ok};
ghost use Rattle.gp_asset.specs.declared.purpose.Form.TheVariants.{Any};
ghost use Rattle.gp_document.specs.Accepted.{asset_of};
ghost use Rattle.gp_document.specs.Reading.{document_of};
ghost use Rattle.gp_unpack.specs.Contents.{Answers};
ghost use Rattle.gp_meshlets.specs.Telling.{text_of, TellsOrMemory, IsOnlyText};

use crate::listing::text;
use gp_asset::{Form, Refusal};
use gp_document::{Accepted, accept};
use gp_host::Bytes;
use gp_unpack::decode_views;
use std::alloc::Global;

/// Lists the meshlets of a GLB or a glTF text (glTF 2.0 and EXT_meshopt_compression): the text, or the input's first fault. Want of
/// memory is the one other answer.
///
/// The time grows with the input, with what its views and accessors ask for, and with the text; in memory are the contents of all views, the
/// text, and one meshlet.
pub fn meshlets(alloc: Global, bytes: &[u8]) -> Result<Bytes, Refusal>
    ensures answers { TellsOrMemory bytes.now result }
    ensures only { IsOnlyText bytes.now result }
{
    match accept(alloc, bytes, Form::Any) {
        Ok(accepted) => tell_accepted(alloc, accepted),
        Err(refusal) => Err(refusal),
    }
}

// Lists those of a document whose asset has no fault.
fn tell_accepted(alloc: Global, accepted: Accepted<'_>) -> Result<Bytes, Refusal>
    requires { asset_of Any (document_of accepted.document) ≡ Ok accepted.asset }
    ensures { Answers (text_of accepted.entry.asset) result }
{
    let Accepted { document, asset } = accepted;
    // The tree is many times its text: it goes before the views are decoded.
    drop(document);
    match decode_views(alloc, &asset) {
        Ok(contents) => {
            let text = text(alloc, &asset, &contents)?;
            Ok(Bytes::from_vec(text))
        }
        Err(faulty) => Err(faulty),
    }
}
