// A source of given bytes, which never fails.
ghost use Rattle.gp_library_c.specs.InMemory.{given_at};

use gp_host::{Failed, Source};

/// The bytes that are left.
#[derive(Drop)]
pub(crate) struct Given<'a> {
    pub(crate) left: &'a [u8],
}

impl<'a> Source for Given<'a> {
    ghost state = { given_at };

    fn read(&mut self, piece: &mut [u8]) -> Result<usize, Failed> {
        let count = piece.len().min(self.left.len());
        piece[..count].copy_from_slice(&self.left[..count]);
        self.left = &self.left[count..];
        Ok(count)
    }
}
