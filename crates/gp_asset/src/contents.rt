// The bytes of buffer views.
ghost use Rattle.std.specs.Prelude.{◌≡◌, ℕ, List, Option, Some, IsSome, is_some};
ghost use Rattle.gp_asset.specs.Contents.{part, buffer_at, stream_at, packed_at, plain_views, bytes_at};

use crate::asset::Asset;
use crate::buffers::BufferBytes;

/// The bytes of some of the views of an asset.
pub trait ViewBytes {
    /// Those of each view that it has.
    ghost views: { Self → List (Option (List ℕ)) };

    /// Whether it has view `at`.
    fn has(&self, at: usize) -> bool
        ensures { result ≡ is_some (bytes_at (views self.now) at) };

    /// The bytes of view `at`, which it has.
    fn view(&self, at: usize) -> &[u8]
        requires { IsSome (bytes_at (views self.now) at) }
        ensures { bytes_at (views self.now) at ≡ Some result.now };
}

/// An asset has exactly its views without a compressed form.
impl<'a> ViewBytes for Asset<'a> {
    ghost views = { plain_views };

    fn has(&self, at: usize) -> bool {
        match self.views.get(at) {
            Some(view) => view.packed.is_none(),
            None => false,
        }
    }

    fn view(&self, at: usize) -> &[u8] {
        let view = self.views[at];
        part(self.buffer(view.buffer), view.offset, view.length)
    }
}

impl<'a> Asset<'a> {
    /// The stream of view `at`, which has a compressed form.
    pub fn packed_bytes(&self, at: usize) -> &[u8]
        requires { IsSome (packed_at self.now at) }
        ensures { stream_at self.now at ≡ Some result.now }
    {
        match self.views[at].packed {
            Some(packed) => part(self.buffer(packed.buffer), packed.offset, packed.length),
            None => &[],
        }
    }

    // The bytes of a buffer; none where they aren't needed.
    fn buffer(&self, at: u32) -> &[u8]
        ensures { result.now ≡ buffer_at self.now.buffers at }
    {
        match self.buffers.get(at as usize) {
            Some(bytes) => bytes.as_slice(),
            None => &[],
        }
    }
}

// So many bytes from an offset on; where there are fewer, those that are there.
fn part(bytes: &[u8], offset: u32, length: u32) -> &[u8]
    ensures { result.now ≡ part bytes.now offset length }
{
    let start = bytes.len().min(offset as usize);
    let end = bytes.len().min(offset as usize + length as usize);
    &bytes[start..end]
}
