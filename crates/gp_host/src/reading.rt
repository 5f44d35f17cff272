// Reading a source to its end.
ghost use Rattle.std.specs.Prelude.{◌≡◌, ◌≢◌, ◌+◌, ◌≤◌, ◌^◌, length, Err, IfOk, IfErr, OnOk, IsErrOf};
ghost use Rattle.std.specs.Io.KnownBytes.{Consumes, IsAtEnd};
ghost use Rattle.gp_host.specs.Causes.{Rose};
ghost use Rattle.gp_host.specs.Reading.{Refuses};

use crate::{Failed, Source};
use std::alloc::{AllocError, Global};
use thiserror::Error;

/// Why a source wasn't read to its end.
#[derive(Clone, Copy, Debug, PartialEq, Eq, Error)]
pub enum ReadRefusal {
    /// A read failed.
    #[error("a read failed")]
    Failed,
    /// More bytes came than the limit.
    #[error("too large")]
    TooLarge,
    /// Want of memory.
    #[error("want of memory")]
    Memory,
}

// The room for one read: the more it holds, the fewer calls of the system a large input takes.
const PIECE: usize = 1 << 16;

/// Reads a source to its end and gives all its bytes, where they are at most `limit`.
/// Nothing is read once more than `limit` bytes were taken.
pub fn read_all<S: Source>(
    alloc: Global,
    source: &mut S,
    limit: usize,
) -> Result<Vec<u8>, ReadRefusal>
    requires { limit ≤ 2 ^ 29 }
    ensures all { IfOk result (λ bytes. Consumes (S.state source.old).left (S.state source.new).left bytes.items) }
    ensures end { OnOk result (IsAtEnd (S.state source.new).left) }
    ensures fits { IfOk result (λ bytes. length bytes.items ≤ limit) }
    ensures refused { IfErr result (Refuses limit (S.state source.old) (S.state source.new)) }
    ensures turns { (S.state source.new).calls ≤ (S.state source.old).calls + limit + 1 }
    ensures later { (S.state source.old).faults ≤ (S.state source.new).faults }
    ensures failed { IsErrOf result ReadRefusal.Failed → Rose (S.state source.old).faults (S.state source.new).faults }
    ensures kept { result ≢ Err ReadRefusal.Failed → (S.state source.new).faults ≡ (S.state source.old).faults }
{
    let mut bytes = Vec::new(alloc);
    let mut piece = [0; PIECE];
    'turns: loop {
        let room = (limit + 1 - bytes.len()).min(PIECE);
        match source.read(&mut piece[..room]) {
            Ok(0) => return Ok(bytes),
            Ok(count) if count > limit - bytes.len() => return Err(ReadRefusal::TooLarge),
            Ok(count) => match bytes.extend_from_slice(&piece[..count]) {
                Ok(()) => {}
                Err(AllocError) => return Err(ReadRefusal::Memory),
            },
            Err(Failed) => return Err(ReadRefusal::Failed),
        }
    }
}
