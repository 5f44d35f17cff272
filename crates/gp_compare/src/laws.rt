//! What comparing numbers says of what they stand for, each law the contract of a function that does nothing.
ghost use Rattle.gp_compare.specs.Laws.{VerticesByNumbers, TrianglesByNumbers, TrianglesByReading};

/// Numbers are the same set, and the second ones without a repeat, exactly where the records that they stand for are so.
pub fn vertices_by_numbers()
    ensures { VerticesByNumbers }
{}

/// Triangles of numbers agree exactly where the triangles of the vertices that they stand for do.
pub fn triangles_by_numbers()
    ensures { TrianglesByNumbers }
{}

/// And so where the vertices are read by number.
pub fn triangles_by_reading()
    ensures { TrianglesByReading }
{}
