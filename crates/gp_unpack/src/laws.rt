//! Laws of unpacking, each the contract of a function that does nothing.
ghost use Rattle.gp_unpack.specs.Laws.{AssetsHaveShapes, ContentsAreWhole, RulesPassAgain, RulesPassWithoutViews, ContentsLaidPlain, ViewlessStaysSo, UnpackedKeepsViews};

/// Each compressed form of an asset has a stride and a count such as its mode has.
pub fn assets_have_shapes()
    ensures { AssetsHaveShapes }
{}

/// The contents of each view of an asset are as long as it says.
pub fn contents_are_whole()
    ensures { ContentsAreWhole }
{}

/// What the rules let through they let through again once the contents of all views were laid plain into one buffer.
pub fn rules_pass_again()
    ensures { RulesPassAgain }
{}

/// And so where there is no view.
pub fn rules_pass_without_views()
    ensures { RulesPassWithoutViews }
{}

/// An asset has the same contents, and all else the same, after the contents of its views were laid plain into one buffer.
pub fn contents_laid_plain()
    ensures { ContentsLaidPlain }
{}

/// And so where there is no view.
pub fn viewless_stays_so()
    ensures { ViewlessStaysSo }
{}

/// What unpacking writes stands for an asset whose views have the contents that they have in the input.
pub fn unpacked_keeps_views()
    ensures { UnpackedKeepsViews }
{}
