// One chunk of a GLB: its length, its type and its bytes, and whether it may stand there.
ghost use Rattle.std.specs.Prelude.{◌≡◌, ◌++◌, IfErr, IfOk};
ghost use Rattle.gp_glb.specs.Bytes.{IsWhole, chunk_bytes};
ghost use Rattle.gp_glb.specs.Faults.{IsBroken, IsInPlace};
ghost use Rattle.gp_glb.specs.declared.fault.GlbFault.TheVariants.{Chunk as BrokenChunk};

use crate::GlbFault;
use crate::header::word_at;

// The types of chunks: `JSON`, and `BIN` with a zero byte.
pub(crate) const JSON: u32 = 0x4E4F_534A;

pub(crate) const BIN: u32 = 0x004E_4942;

// A chunk, and the bytes behind it.
#[derive(Clone, Copy)]
pub(crate) struct Next<'a> {
    pub(crate) kind: u32,
    pub(crate) content: &'a [u8],
    pub(crate) behind: &'a [u8],
}

// Chunk `at` in front of these bytes.
pub(crate) fn next_chunk(left: &[u8], at: usize) -> Result<Next<'_>, GlbFault>
    ensures whole { IfOk result (λ next. IsWhole (record { kind = next.kind; content = next.content.now })) }
    ensures place { IfOk result (λ next. IsInPlace at next.kind) }
    ensures bytes { IfOk result (λ next. left.now ≡ chunk_bytes (record { kind = next.kind; content = next.content.now }) ++ next.behind.now) }
    ensures broken { IfErr result (λ fault. (fault ≡ BrokenChunk at) × IsBroken at left.now) }
{
    if left.len() < 8 {
        return Err(GlbFault::Chunk { at });
    }
    let size = word_at(left, 0) as usize;
    let kind = word_at(left, 4);
    if size % 4 != 0 || left.len() - 8 < size {
        return Err(GlbFault::Chunk { at });
    }
    if (at == 0 && kind != JSON) || (at > 0 && kind == JSON) || (at > 1 && kind == BIN) {
        return Err(GlbFault::Chunk { at });
    }
    Ok(Next {
        kind,
        content: &left[8..8 + size],
        behind: &left[8 + size..],
    })
}
