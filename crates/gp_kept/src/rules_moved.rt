//! The rules let a packed asset through, each law the contract of a function that does nothing.
ghost use Rattle.gp_packed.specs.RulesMoved.{AccessorsPass, ViewsPass, BuffersPass, LoadIsLast, RulesPassMoved};
ghost use Rattle.gp_packed.specs.RulesMoved.{AssetLoadIsLast, PackedAssetPasses};

/// The accessors of a packed asset stand for its packed ones.
pub fn accessors_pass()
    ensures { AccessorsPass }
{}

/// The views of a packed asset stand for its packed ones, and its buffers have the bytes of the first chunk.
pub fn views_pass()
    ensures views { ViewsPass }
    ensures buffers { BuffersPass }
{}

/// What views and accessors ask for together is the last rule of all.
pub fn load_is_last()
    ensures rules { LoadIsLast }
    ensures asset { AssetLoadIsLast }
{}

/// All rules but the load let a packed asset through.
pub fn rules_pass_moved()
    ensures { RulesPassMoved }
{}

/// All rules but the load let a packed tree through, and it stands for the packed asset.
pub fn packed_asset_passes()
    ensures { PackedAssetPasses }
{}
