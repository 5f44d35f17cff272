// Data URIs: the prefixes of a buffer, and the base64 behind them.
ghost use Rattle.std.specs.Prelude.{IfErr, IfOk, MatchOption};
ghost use Rattle.gp_glb.specs.Uri.{HasCode, HasOtherScheme, Holds, IsUriFault, ReadsUri};

use crate::UriFault;
use base64::DecodeAllocError;
use base64::engine::general_purpose::STANDARD;
use std::alloc::Global;

// What stands behind one of the two prefixes.
fn code_of(text: &[u8]) -> Option<&[u8]>
    ensures { MatchOption result (HasOtherScheme text.now) (λ code. HasCode text.now code.now) }
{
    match text.strip_prefix(b"data:application/octet-stream;base64,") {
        Some(code) => Some(code),
        None => text.strip_prefix(b"data:application/gltf-buffer;base64,"),
    }
}

/// The bytes that a data URI of a buffer holds in base64 (glTF 2.0, section 3.6.1.1; RFC 4648, section 4).
///
/// The media type is `application/octet-stream` or `application/gltf-buffer`, in these letters. The base64 is canonical: padded, and with no bits left over.
pub fn data_uri(alloc: Global, text: &[u8]) -> Result<Vec<u8>, UriFault>
    ensures bytes { IfOk result (λ out. Holds text.now out.items) }
    ensures fault { IfErr result (IsUriFault text.now) }
    ensures meaning { ReadsUri text.now result }
{
    let Some(code) = code_of(text) else {
        return Err(UriFault::Scheme);
    };
    match STANDARD.decode(alloc, code) {
        Ok(bytes) => Ok(bytes),
        Err(DecodeAllocError::DecodeError(_)) => Err(UriFault::Base64),
        Err(DecodeAllocError::OutOfMemory) => Err(UriFault::Memory),
    }
}
