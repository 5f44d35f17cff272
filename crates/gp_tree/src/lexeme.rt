// A number or a string as it is spelled.
ghost use Rattle.std.specs.Prelude.{◌≡◌, ◌≤◌, ℕ, List, length, IsOk, IfOk};

use gp_host::NoMemory;
use smallvec::SmallVec;
use std::alloc::Global;
use std::marker::Model;

/// A number as it is spelled, or what stands between the quotes of a string or key, as it is
/// spelled (RFC 8259, sections 6 and 7). Contracts see it as its list of bytes.
///
/// Up to 16 bytes stand in the lexeme itself: most numbers and keys take no memory of their own.
/// Whoever makes one spells it as the RFC allows; `read` and the calls of `Tree` do.
#[derive(Drop)]
pub struct Lexeme {
    bytes: SmallVec<u8, 16>,
}

impl Model for Lexeme {
    ghost Value = { List ℕ };

    ghost view = { λ l. l.bytes.items };
}

impl Lexeme {
    /// The lexeme with these bytes. It asks for memory only where they are more than 16.
    pub fn from_slice(alloc: Global, bytes: &[u8]) -> Result<Lexeme, NoMemory>
        ensures bytes { IfOk result (λ l. l ≡ bytes.now) }
        ensures short { length bytes.now ≤ 16 → IsOk result }
    {
        let bytes = SmallVec::from_slice(alloc, bytes)?;
        Ok(Lexeme { bytes })
    }

    /// Its bytes.
    pub fn as_slice(&self) -> &[u8]
        ensures { result.now ≡ self.now }
    {
        self.bytes.as_slice()
    }
}
