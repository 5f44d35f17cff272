//! What the accessors and images of an asset read as after the edits of groups that move, each law the contract of a
//! function that does nothing.
ghost use Rattle.gp_packed.specs.AccessorsBack.{MovedColumnsReadBack, MovedListsReadBack, KeptAccessorsReadBack};
ghost use Rattle.gp_packed.specs.AccessorsBack.{MadeAccessorsReadBack, AccessorsReadBack, AccessorsAreCounted};
ghost use Rattle.gp_packed.specs.AccessorsBack.{ImagesReadBack, GroupsKeepOthers};

/// A column of a group reads back in its new view, with as many vertices as there are records.
pub fn moved_columns_read_back()
    ensures { MovedColumnsReadBack }
{}

/// A list of a group reads back in its new view, with the component that the vertex numbers need.
pub fn moved_lists_read_back()
    ensures { MovedListsReadBack }
{}

/// An accessor that doesn't move reads back with the new numbers of its views.
pub fn kept_accessors_read_back()
    ensures { KeptAccessorsReadBack }
{}

/// The accessor that is made for the primitives of a group without indices reads back.
pub fn made_accessors_read_back()
    ensures { MadeAccessorsReadBack }
{}

/// All accessors of an asset read back, those of the input by their numbers and those made behind them.
pub fn accessors_read_back()
    ensures read { AccessorsReadBack }
    ensures count { AccessorsAreCounted }
{}

/// All images read back with the new numbers of their views.
pub fn images_read_back()
    ensures { ImagesReadBack }
{}

/// The members of the root but accessors, meshes and images are found as before.
pub fn groups_keep_others()
    ensures { GroupsKeepOthers }
{}
