//! Laws of the tables of what moves, over the definitions alone: each law is what its function ensures, and the functions
//! do nothing.
ghost use Rattle.gp_pack.specs.MoveTables.{FirstGroupsAreFound, NewNumbersAgree, NewNumbersAreFound, MadePlacesAreFound};

/// A table of first entries names the groups that have a number.
pub fn first_groups_are_found()
    ensures { FirstGroupsAreFound }
{}

/// The new numbers of views are those by the groups that move.
pub fn new_numbers_are_found()
    ensures agree { NewNumbersAgree }
    ensures found { NewNumbersAreFound }
{}

/// A table of first entries has the places of the views that are made.
pub fn made_places_are_found()
    ensures { MadePlacesAreFound }
{}
