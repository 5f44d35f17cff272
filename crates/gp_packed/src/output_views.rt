//! Which buffer views the output of packing has, and at which numbers, each law the contract of a function that does
//! nothing.
ghost use Rattle.gp_packed.specs.OutputViews.{StoredAreCounted, OutputViewsAreCounted};
ghost use Rattle.gp_packed.specs.OutputViews.{SurvivorsStandThere, MadeViewsStandThere};
ghost use Rattle.gp_packed.specs.OutputViews.{AllStoredSuit, AllStoredFit, OutputViewsFit};
ghost use Rattle.gp_packed.specs.OutputViews.{EditedViewsAreThere, MadeViewsKeepOthers};
ghost use Rattle.gp_packed.specs.OutputViews.{EditedViewsAreCounted, SurvivorsTreesStandThere, MadeTreesStandThere};

/// The output has the views that stay and those that are made.
pub fn output_views_are_counted()
    ensures stored { StoredAreCounted }
    ensures output { OutputViewsAreCounted }
{}

/// A view that stays stands at its new number, and one that is made at the number that its accessor gets.
pub fn output_views_stand_there()
    ensures survivors { SurvivorsStandThere }
    ensures made { MadeViewsStandThere }
{}

/// What is stored of an accepted input suits its views and fits, whatever moves, and the views of the output fit where
/// those that are made do.
pub fn output_views_fit()
    ensures suit { AllStoredSuit }
    ensures stored { AllStoredFit }
    ensures output { OutputViewsFit }
{}

/// The edit of views changes the list of views alone.
pub fn edited_views_are_there()
    ensures views { EditedViewsAreThere }
    ensures others { MadeViewsKeepOthers }
{}

/// So do their trees among the items of the list of views.
pub fn view_trees_stand_there()
    ensures count { EditedViewsAreCounted }
    ensures survivors { SurvivorsTreesStandThere }
    ensures made { MadeTreesStandThere }
{}
