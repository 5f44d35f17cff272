//! Laws of packing, each the contract of a function that does nothing.
ghost use Rattle.gp_packed.specs.StoredLaws.{StoredStaysCommon, StoredStaysSound, StoredIsSupported};
ghost use Rattle.gp_kept.specs.Laws.{NoneCompressed, ContentsArePlain, PackedIsSame};
ghost use Rattle.gp_kept.specs.Numbers.{NumbersFit};

/// No view of an asset that may be packed is compressed, so that each contains the bytes that it has in its buffer.
pub fn none_is_compressed()
    ensures views { NoneCompressed }
    ensures contents { ContentsArePlain }
{}

/// A tree whose views are stored in one buffer has the same in common, stays sound, and uses one extension more at most.
pub fn stored_trees_stay()
    ensures common { StoredStaysCommon }
    ensures sound { StoredStaysSound }
    ensures supported { StoredIsSupported }
{}

/// What packing writes is the same asset.
pub fn packed_is_same()
    ensures { PackedIsSame }
{}

/// Every number that packing writes into the JSON is below 2^32.
pub fn numbers_fit()
    ensures { NumbersFit }
{}
