//! What is read from the tree of an asset after the edits of this crate, each law the contract of a function that does
//! nothing.
ghost use Rattle.gp_edits.specs.ReadingBack.{NumbersReadBack, PlainViewsReadBack, PlacedViewsReadBack, BuffersReadBack, ListsOfViewsReadBack};
ghost use Rattle.gp_edits.specs.ReadingBack.{ListsOfNamesReadBack, NamesKeepOthers, AssetsReadBack, AssetsOfNoViewsReadBack};

/// A number that is written is read again.
pub fn numbers_read_back()
    ensures { NumbersReadBack }
{}

/// A view reads back where it was placed: without its extension object, and with it.
pub fn views_read_back()
    ensures plain { PlainViewsReadBack }
    ensures placed { PlacedViewsReadBack }
{}

/// So do all views of a list, each without its extension object.
pub fn lists_of_views_read_back()
    ensures { ListsOfViewsReadBack }
{}

/// A buffer that is known by its length alone reads back.
pub fn buffers_read_back()
    ensures { BuffersReadBack }
{}

/// The lists of extensions read back without the name, and the other members of the root are as before.
pub fn names_read_back()
    ensures read { ListsOfNamesReadBack }
    ensures others { NamesKeepOthers }
{}

/// The fields of an asset read back where its views are plain ones of one buffer, and where it has no view and no buffer.
pub fn assets_read_back()
    ensures one_buffer { AssetsReadBack }
    ensures no_views { AssetsOfNoViewsReadBack }
{}
