// The chunks from number 2 on, which are neither JSON nor BIN.
ghost use Rattle.std.specs.Prelude.{◌≡◌, List, IfErr, OnOk, ℕ};
ghost use Rattle.gp_glb.specs.Bytes.{Chunk};
ghost use Rattle.gp_glb.specs.Container.{IsRest};
ghost use Rattle.gp_glb.specs.Faults.{BreaksFrom};
ghost use Rattle.gp_glb.specs.declared.fault.GlbFault.TheVariants.{Chunk as BrokenChunk};

use crate::GlbFault;
use crate::next_chunk::next_chunk;

// Makes sure of the chunks from number 2 on.
pub(crate) fn check_others(rest: &[u8]) -> Result<(), GlbFault>
    ensures whole { OnOk result ((others : List Chunk) × IsRest rest.now others) }
    ensures broken { IfErr result (λ fault. (at : ℕ) × (fault ≡ BrokenChunk at) × BreaksFrom 2 rest.now at) }
{
    let mut left = rest;
    let mut at = 2;
    'others: while !left.is_empty() {
        let next = next_chunk(left, at)?;
        left = next.behind;
        at += 1;
    }
    Ok(())
}
