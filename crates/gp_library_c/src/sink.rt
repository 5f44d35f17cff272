// A sink that keeps all that it is given, for which it takes memory.
ghost use Rattle.std.specs.Prelude.{◌≡◌, [], None, Some};
ghost use Rattle.gp_library_c.specs.InMemory.{kept_at};

use gp_host::{Failed, Sink};
use std::alloc::{AllocError, Global};

/// The bytes so far, and how often memory wasn't found for more.
#[derive(Drop)]
pub(crate) struct Kept {
    pub(crate) bytes: Vec<u8>,
    pub(crate) faults: u64,
}

impl Kept {
    /// A sink that was given nothing.
    pub(crate) fn new(alloc: Global) -> Kept
        ensures { kept_at result ≡ record { held = Some []; settled = None; faults = 0 } }
    {
        Kept {
            bytes: Vec::new(alloc),
            faults: 0,
        }
    }
}

impl Sink for Kept {
    ghost state = { kept_at };

    fn write(&mut self, piece: &[u8]) -> Result<usize, Failed> {
        match self.bytes.extend_from_slice(piece) {
            Ok(()) => Ok(piece.len()),
            Err(AllocError) => {
                self.faults = self.faults.saturating_add(1);
                Err(Failed)
            }
        }
    }

    fn flush(&mut self) -> Result<(), Failed> {
        Ok(())
    }
}
