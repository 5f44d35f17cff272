// The header of a GLB: its magic number, its version and its total length.
ghost use Rattle.std.specs.Prelude.{◌≡◌, ◌+◌, ◌≤◌, length, IfOk, IfErr};
ghost use Rattle.gp_glb.specs.Bytes.{word_at};
ghost use Rattle.gp_glb.specs.Container.{IsText, HasBody};
ghost use Rattle.gp_glb.specs.Faults.{IsFirstFault};

use crate::GlbFault;
use byteorder::{ByteOrder, LittleEndian};

// `glTF`
pub(crate) const MAGIC: u32 = 0x4654_6C67;

pub(crate) const VERSION: u32 = 2;

// The number in the four bytes from a place.
pub(crate) fn word_at(bytes: &[u8], at: usize) -> u32
    requires { at + 4 ≤ length bytes.now }
    ensures { result ≡ word_at bytes.now at }
{
    LittleEndian::read_u32(&bytes[at..])
}

// The bytes from the header up to the stated total.
pub(crate) fn body(bytes: &[u8]) -> Result<&[u8], GlbFault>
    requires { IsText bytes.now → ⊥ }
    ensures body { IfOk result (λ part. HasBody bytes.now part.now) }
    ensures fault { IfErr result (IsFirstFault bytes.now) }
{
    if bytes.len() < 12 {
        return Err(GlbFault::TooShort);
    }
    if word_at(bytes, 0) != MAGIC {
        return Err(GlbFault::Magic);
    }
    if word_at(bytes, 4) != VERSION {
        return Err(GlbFault::Version);
    }
    let total = word_at(bytes, 8) as usize;
    if total < 12 || total > bytes.len() {
        return Err(GlbFault::Length);
    }
    Ok(&bytes[12..total])
}
