//! What is read from the tree of an asset after the edits of this crate that say that a view is compressed, each law the
//! contract of a function that does nothing.
ghost use Rattle.gp_edits.specs.PackedBack.{UnpackedViewsReadBack, CompressedViewsReadBack, FallbackBuffersReadBack};
ghost use Rattle.gp_edits.specs.PackedBack.{AddedNamesReadBack, AddedNamesKeepOthers};

/// A view reads back: a plain one where it was placed, and any with the extension object that it gets.
pub fn packed_views_read_back()
    ensures plain { UnpackedViewsReadBack }
    ensures compressed { CompressedViewsReadBack }
{}

/// A buffer that is only fallen back on reads back.
pub fn fallback_buffers_read_back()
    ensures { FallbackBuffersReadBack }
{}

/// The lists of extensions read back with the name, and the other members of the root are as before.
pub fn added_names_read_back()
    ensures read { AddedNamesReadBack }
    ensures others { AddedNamesKeepOthers }
{}
