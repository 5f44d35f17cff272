//! Laws of strips and fans, each the contract of a function that does nothing.
ghost use Rattle.gp_strips.specs.Laws.{ListsAreTheTriangles, ListsHaveEachTriangle, ListsHaveThreeCorners, CornersAreVertices, ListsDrawTheSame, ListedHaveTriangles, UnlistedStay, NothingListedIsUnpacked, ContentsStay, ListsStand, NumbersNameLists};

/// A list has the triangles of its strip or fan, in their order.
pub fn lists_are_the_triangles()
    ensures { ListsAreTheTriangles }
{}

/// It has each of them as often as the strip or the fan.
pub fn lists_have_each_triangle()
    ensures { ListsHaveEachTriangle }
{}

/// It has three corners a triangle.
pub fn lists_have_three_corners()
    ensures { ListsHaveThreeCorners }
{}

/// Each of its corners is a vertex of the strip or the fan.
pub fn corners_are_vertices()
    ensures { CornersAreVertices }
{}

/// It draws the triangles of the strip or the fan, whatever values its vertices have.
pub fn lists_draw_the_same()
    ensures { ListsDrawTheSame }
{}

/// A strip or a fan that is listed has at least one triangle, and no more vertices than 2^24.
pub fn listed_have_triangles()
    ensures { ListedHaveTriangles }
{}

/// The tree of a primitive that no list is written for stays as it is.
pub fn unlisted_stay()
    ensures { UnlistedStay }
{}

/// Where no list is written the document is what unpacking gives.
pub fn nothing_listed_is_unpacked()
    ensures { NothingListedIsUnpacked }
{}

/// The contents of each view of the input stand in the one buffer where unpacking puts them.
pub fn contents_stay()
    ensures { ContentsStay }
{}

/// Each list stands in the one buffer where its view says.
pub fn lists_stand()
    ensures { ListsStand }
{}

/// The number that a primitive gets names an accessor of its list, and that one the view of the list.
pub fn numbers_name_lists()
    ensures { NumbersNameLists }
{}
