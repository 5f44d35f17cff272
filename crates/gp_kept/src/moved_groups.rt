//! Laws of the groups of an asset that move, each the contract of a function that does nothing.
ghost use Rattle.gp_kept.specs.MovedGroupsLaws.{MovedGroupsAreWhole, MovedGroupsAreFew};
ghost use Rattle.gp_kept.specs.MovedGroupsLaws.{MovedRecordsAreBytes, MovedGroupsCanMove};

/// Each group has vertices, as long as the elements of its columns together, its lists number them, and no accessor is
/// one of two.
pub fn moved_groups_are_whole()
    ensures { MovedGroupsAreWhole }
{}

/// There are no more groups than accessors.
pub fn moved_groups_are_few()
    ensures { MovedGroupsAreFew }
{}

/// The groups of an accepted input can be moved where the output is as long as a container may be.
pub fn moved_groups_can_move()
    ensures { MovedGroupsCanMove }
{}

/// Their records are bytes where the input is.
pub fn moved_records_are_bytes()
    ensures { MovedRecordsAreBytes }
{}
