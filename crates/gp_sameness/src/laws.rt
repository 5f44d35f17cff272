//! Laws of the definitions, each the contract of a function that does nothing.
ghost use Rattle.gp_sameness.specs.AnySize.{AssetsAreOfAnySize, SmallOnesAreAssets};

/// An asset is one of any size that doesn't ask for too much.
pub fn assets_are_small()
    ensures there { AssetsAreOfAnySize }
    ensures back { SmallOnesAreAssets }
{}
