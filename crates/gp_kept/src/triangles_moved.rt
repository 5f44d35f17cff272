//! Laws of what primitives draw and of the vertices of their groups, each the contract of a function that does nothing.
ghost use Rattle.gp_kept.specs.TrianglesMoved.{ElementsAreCounted, CornersAreCounted, RecordsAreCounted, AssetsAreRead};
ghost use Rattle.gp_kept.specs.TrianglesMoved.{ChosenByBetter, MovedCorners, MovedTriangles, MovedVertices, MovedColumns, RecordsAreOfColumns, MovedRecords};
ghost use Rattle.gp_kept.specs.TrianglesMoved.{MovedGroupHasBytes, MovedGroupIsWhole, MadeElementsAreMoved};

/// The better order may be chosen for each list of a group that may move.
pub fn chosen_by_better()
    ensures { ChosenByBetter }
{}

/// A primitive of a group that moves has indices then, each of a record, with the triangles of its corners before.
pub fn moved_corners()
    ensures { MovedCorners }
{}

/// A primitive of a group that moves draws the same triangles.
pub fn moved_triangles()
    ensures { MovedTriangles }
{}

/// The columns of a group that moves, and so the accessors of its primitives' vertices, have as many elements as there are records.
pub fn moved_columns_are_counted()
    ensures vertices { MovedVertices }
    ensures columns { MovedColumns }
{}

/// The records that are gathered of a group are those that its columns have.
pub fn records_are_of_columns()
    ensures { RecordsAreOfColumns }
{}

/// A group that moves has the same vertices, each once.
pub fn moved_records()
    ensures { MovedRecords }
{}

/// The new records of a group are bytes where the contents of the views are.
pub fn moved_group_has_bytes()
    ensures { MovedGroupHasBytes }
{}

/// A group that moves is whole: its records, columns and lists are as long as they have to be.
pub fn moved_group_is_whole()
    ensures { MovedGroupIsWhole }
{}

/// An asset that was read is one of which these laws speak.
pub fn assets_are_read()
    ensures { AssetsAreRead }
{}

/// Where the accessors of an output read the views that are made, they read what the laws ask for.
pub fn made_elements_are_moved()
    ensures { MadeElementsAreMoved }
{}

/// An accessor of any asset has as many elements as it says, and corners and records are as many.
pub fn elements_are_counted()
    ensures elements { ElementsAreCounted }
    ensures corners { CornersAreCounted }
    ensures records { RecordsAreCounted }
{}
