// The bytes of all views of an asset.
ghost use Rattle.std.specs.Prelude.{◌≡◌, ◌<◌, Some, length, map, slice_get};
ghost use Rattle.gp_layout.specs.Layout.{starts, laid};
ghost use Rattle.gp_unpack.specs.Laid.{cut, IsLaid};

use crate::laying::Place;
use gp_asset::ViewBytes;
use std::marker::Model;

/// The bytes of each buffer view of an asset, in order, in one buffer of glTF 2.0: each view begins at the next multiple
/// of 4, and zeros stand in the gaps.
#[derive(Drop)]
pub struct Contents {
    buffer: Vec<u8>,
    parts: Vec<Place>,
}

impl Model for Contents {
    ghost use Rattle.std.specs.Prelude.{List, ℕ};
    ghost use Rattle.gp_unpack.specs.Laid.{cut, IsLaid};

    ghost Value = { List (List ℕ) };

    ghost view = { λ contents. cut contents.buffer.items contents.parts.items };

    ghost invariant = { λ contents. IsLaid contents.buffer.items contents.parts.items };
}

impl Contents {
    /// What stands in these parts of a buffer, which are laid in it in a row. It takes no memory.
    pub(crate) fn from_parts(buffer: Vec<u8>, parts: Vec<Place>) -> Self
        requires { IsLaid buffer.items parts.items }
        ensures { result ≡ cut buffer.items parts.items }
    {
        Contents { buffer, parts }
    }

    /// How many views there are.
    pub fn len(&self) -> usize
        ensures { result ≡ length self.now }
    {
        self.parts.len()
    }

    /// The one buffer, up to the end of the last view.
    pub fn buffer(&self) -> &[u8]
        ensures { result.now ≡ laid self.now }
    {
        self.buffer.as_slice()
    }

    /// Where view `at` begins in the buffer.
    pub fn start(&self, at: usize) -> usize
        requires { at < length self.now }
        ensures { slice_get (starts (map length self.now)) at ≡ Some result }
    {
        self.parts[at].start
    }

    /// The one buffer. It takes no memory.
    pub fn into_buffer(self) -> Vec<u8>
        ensures { result.items ≡ laid self }
    {
        self.buffer
    }
}

/// It has every view that it holds.
impl ViewBytes for Contents {
    ghost use Rattle.gp_unpack.specs.Contents.{held};

    ghost views = { held };

    fn has(&self, at: usize) -> bool {
        at < self.parts.len()
    }

    fn view(&self, at: usize) -> &[u8] {
        let part = self.parts[at];
        &self.buffer[part.start..part.start + part.length]
    }
}
