// The streams of the views of an asset.
ghost use Rattle.std.specs.Prelude.{◌≡◌, length};

use crate::coding::Stream;
use std::marker::Model;

/// The stream of each buffer view of an asset; none where the view stays plain.
#[derive(Drop)]
pub struct StoredViews {
    streams: Vec<Option<Stream>>,
}

impl Model for StoredViews {
    ghost use Rattle.std.specs.Prelude.{List, Option};
    ghost use Rattle.gp_storage.specs.declared.coding.Stream.{Stream};

    ghost Value = { List (Option Stream) };

    ghost view = { λ stored. stored.streams.items };
}

impl StoredViews {
    // These streams. It takes no memory.
    pub(crate) fn from_vec(streams: Vec<Option<Stream>>) -> Self
        ensures { result ≡ streams.items }
    {
        StoredViews { streams }
    }

    /// The streams, by the numbers of their views.
    pub fn as_slice(&self) -> &[Option<Stream>]
        ensures { result.now ≡ self.now }
    {
        self.streams.as_slice()
    }
}
