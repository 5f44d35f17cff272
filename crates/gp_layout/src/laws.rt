//! Laws of rows, each the contract of a function that does nothing.
ghost use Rattle.gp_layout.specs.Laws.{RowsEnd, PartsHaveStarts, PartsAreLaid, PartsAreApart, PartsAreWithin, StartsAreAligned};

/// A row is as long as the end of its last part.
pub fn rows_end()
    ensures { RowsEnd }
{}

/// Each part has a start.
pub fn parts_have_starts()
    ensures { PartsHaveStarts }
{}

/// Each part stands at its start, also where more bytes follow the row.
pub fn parts_are_laid()
    ensures { PartsAreLaid }
{}

/// No part goes past the end of the row.
pub fn parts_are_within()
    ensures { PartsAreWithin }
{}

/// Each part begins at a multiple of 4.
pub fn starts_are_aligned()
    ensures { StartsAreAligned }
{}

/// No part begins before one in front of it ends.
pub fn parts_are_apart()
    ensures { PartsAreApart }
{}
