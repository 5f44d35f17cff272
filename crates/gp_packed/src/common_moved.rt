//! A law of trees where groups move, the contract of a function that does nothing.
ghost use Rattle.gp_packed.specs.CommonMoved.{MovedStaysCommon, ReadIsAssetOf};

/// The packed tree and the input's are equal once what packing may write is left out, for every asset that is read from the input's.
pub fn moved_trees_stay()
    ensures common { MovedStaysCommon }
    ensures read { ReadIsAssetOf }
{}
