//! What the views of a packed asset contain, and the elements of its accessors, each law the contract of a function
//! that does nothing.
ghost use Rattle.gp_kept.specs.ElementsMoved.{InputContents, OutputContents, OutputContentsStay, OutputHasColumns, OutputHasLists};
ghost use Rattle.gp_kept.specs.ElementsMoved.{KeptAccessorsStandThere, KeptElements, KeptImages, KeptElementsOfAll};
ghost use Rattle.gp_kept.specs.ElementsMoved.{ColumnsByTheirGroup, ListsByTheirGroup, MovedColumnsStandThere, MovedListsStandThere};
ghost use Rattle.gp_kept.specs.ElementsMoved.{MadeListsStandThere, PackedAccessorsAreCounted};
ghost use Rattle.gp_kept.specs.ElementsMoved.{MovedColumnElements, MovedListElements, MadeListElements, PackedKeepsRest};

/// The output has the contents of the views that stay at their new numbers, those of made columns, and of made lists up
/// to the corner that a triangle begins with.
pub fn output_has_contents()
    ensures input { InputContents }
    ensures output { OutputContents }
    ensures stay { OutputContentsStay }
    ensures columns { OutputHasColumns }
    ensures lists { OutputHasLists }
{}

/// An accessor that doesn't move stays at its number, and has its elements in the views that stay; an image has its
/// bytes.
pub fn kept_elements_stay()
    ensures accessors { KeptAccessorsStandThere }
    ensures one { KeptElements }
    ensures images { KeptImages }
    ensures all { KeptElementsOfAll }
{}

/// An accessor that moves stands at its number, by its group, and those that are made follow.
pub fn moved_accessors_stand_there()
    ensures column { ColumnsByTheirGroup }
    ensures list { ListsByTheirGroup }
    ensures columns { MovedColumnsStandThere }
    ensures lists { MovedListsStandThere }
    ensures made { MadeListsStandThere }
    ensures count { PackedAccessorsAreCounted }
{}

/// A column has its parts of the records in their new order, and a list the same triangles.
pub fn moved_elements_are_there()
    ensures columns { MovedColumnElements }
    ensures lists { MovedListElements }
    ensures made { MadeListElements }
{}

/// Whatever moves of an accepted input, its other views and accessors are as they were.
pub fn packed_keeps_the_rest()
    ensures { PackedKeepsRest }
{}
