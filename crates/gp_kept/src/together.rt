//! Laws of a whole output, each the contract of a function that does nothing.
ghost use Rattle.gp_kept.specs.PackedTogether.{OrderIsUnseen, OutputHolds, KeepingIsSame, PackedGroupsAreSame};

/// In what order groups are moved isn't seen.
pub fn order_is_unseen()
    ensures { OrderIsUnseen }
{}

/// What packing writes is the same asset where the asset that is read of it keeps views, elements, images,
/// triangles and vertices.
pub fn keeping_is_same()
    ensures holds { OutputHolds }
    ensures same { KeepingIsSame }
{}

/// What packing writes of an accepted input is the same asset, whichever groups move.
pub fn packed_groups_are_same()
    ensures { PackedGroupsAreSame }
{}
