//! Laws of meshlets, each the contract of a function that does nothing.
ghost use Rattle.gp_meshlets.specs.Laws.{MeshletsAreTheList, MeshletsHaveTriangles, VerticesAreFew, VerticesAreDistinct, VerticesAreUsed, CornersAreVertices, TrianglesAreFew, RunsAreCut, HaveOneText};

/// The meshlets' corners, looked up in their vertices and joined, are the list: each triangle stands in one meshlet, in order.
pub fn meshlets_are_the_list()
    ensures { MeshletsAreTheList }
{}

/// Each meshlet has whole triangles, at least one.
pub fn meshlets_have_triangles()
    ensures { MeshletsHaveTriangles }
{}

/// Each meshlet has at most 64 vertices.
pub fn vertices_are_few()
    ensures { VerticesAreFew }
{}

/// No vertex stands twice in a meshlet.
pub fn vertices_are_distinct()
    ensures { VerticesAreDistinct }
{}

/// Each vertex of a meshlet is one of its corners.
pub fn vertices_are_used()
    ensures { VerticesAreUsed }
{}

/// Each corner of a meshlet is the place of one of its vertices.
pub fn corners_are_vertices()
    ensures { CornersAreVertices }
{}

/// Each meshlet has at most 126 triangles.
pub fn triangles_are_few()
    ensures { TrianglesAreFew }
{}

/// The runs are the list in order and without gaps; each fits, and none but the last fits with the next triangle added.
pub fn runs_are_cut()
    ensures { RunsAreCut }
{}

/// An input has one answer: its text, or one first fault.
pub fn have_one_text()
    ensures { HaveOneText }
{}
