// Splitting a container: text or GLB, then its chunks in their places.
ghost use Rattle.std.specs.Prelude.{◌≡◌, ℕ, IfErr, IfOk, Result};
ghost use Rattle.gp_glb.specs.Container.{Container, AreChunks};
ghost use Rattle.gp_glb.specs.Faults.{BreaksFrom, Reads};
ghost use Rattle.gp_glb.specs.Parts.{parts, answer};
ghost use Rattle.gp_glb.specs.declared.fault.GlbFault.{GlbFault};
ghost use Rattle.gp_glb.specs.declared.fault.GlbFault.TheVariants.{Chunk as BrokenChunk};

use crate::header::body;
use crate::next_chunk::{BIN, next_chunk};
use crate::others::check_others;
use crate::text::is_text;
use crate::{Chunks, GlbFault};

// The most bytes that the JSON may have.
const MOST_JSON: usize = 0x400_0000;

// The parts of the bytes behind a header.
fn split_body(body: &[u8]) -> Result<Chunks<'_>, GlbFault>
    ensures chunks { IfOk result (λ c. AreChunks body.now (parts c)) }
    ensures broken { IfErr result (λ fault. (at : ℕ) × (fault ≡ BrokenChunk at) × BreaksFrom 0 body.now at) }
{
    let first = next_chunk(body, 0)?;
    if first.behind.is_empty() {
        return Ok(Chunks {
            json: first.content,
            bin: None,
            rest: first.behind,
        });
    }
    let second = next_chunk(first.behind, 1)?;
    check_others(second.behind)?;
    if second.kind == BIN {
        Ok(Chunks {
            json: first.content,
            bin: Some(second.content),
            rest: second.behind,
        })
    } else {
        Ok(Chunks {
            json: first.content,
            bin: None,
            rest: first.behind,
        })
    }
}

// The parts of the bytes, or their first fault.
fn read_parts(bytes: &[u8]) -> Result<Chunks<'_>, GlbFault>
    ensures { Reads bytes.now (answer result) }
{
    if is_text(bytes) {
        if bytes.len() > MOST_JSON {
            return Err(GlbFault::JsonTooLarge);
        }
        return Ok(Chunks {
            json: bytes,
            bin: None,
            rest: &[],
        });
    }
    let body = body(bytes)?;
    let chunks = split_body(body)?;
    if chunks.json.len() > MOST_JSON {
        return Err(GlbFault::JsonTooLarge);
    }
    Ok(chunks)
}

/// Cuts a container into its parts, or gives its first fault (glTF 2.0, GLB file format).
///
/// Bytes that go on with `{` past white space are a glTF text, and the JSON is the whole of it. A GLB may be followed by other bytes, which don't count.
pub fn split<'a>(bytes: &'a [u8]) -> Result<Chunks<'a>, GlbFault>
    ensures reads { Reads bytes.now (answer result) }
    ensures only { (other : Result Container GlbFault) → Reads bytes.now other → other ≡ answer result }
{
    read_parts(bytes)
}
