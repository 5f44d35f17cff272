//! Laws of the views that packing makes, each the contract of a function that does nothing.
ghost use Rattle.gp_packed.specs.MadeLaws.{ListsReadBack, ListElementsReadBack, ListsAreLong, ListsAreBytes, ListsAreBelow};
ghost use Rattle.gp_packed.specs.MadeLaws.{ColumnsReadBack, ColumnPartsAreLong, ColumnsAreLong, ColumnsHaveRoom, ColumnsAreBytes, RecordsReadBack};
ghost use Rattle.gp_packed.specs.MadeLaws.{StreamedListsReadBack, StreamedListsSuit, StreamedColumnsReadBack, MadeColumnsSuit, StoredColumnsSuit, MadeListsSuit};
ghost use Rattle.gp_packed.specs.MadeLaws.{MadeInOrder, MadeColumnsFound, MadeListsFound};

/// The numbers of a made list are read back, as are the elements of an accessor that reads it.
pub fn lists_read_back()
    ensures numbers { ListsReadBack }
    ensures elements { ListElementsReadBack }
    ensures long { ListsAreLong }
    ensures bytes { ListsAreBytes }
    ensures below { ListsAreBelow }
{}

/// The elements of a made column are its parts of the records.
pub fn columns_read_back()
    ensures elements { ColumnsReadBack }
    ensures parts { ColumnPartsAreLong }
    ensures long { ColumnsAreLong }
    ensures room { ColumnsHaveRoom }
    ensures bytes { ColumnsAreBytes }
{}

/// The elements of all made columns together are the records.
pub fn records_read_back()
    ensures { RecordsReadBack }
{}

/// Made views have some bytes, in whole elements.
pub fn made_views_suit()
    ensures columns { MadeColumnsSuit }
    ensures lists { MadeListsSuit }
{}

/// A stream of a made list means the same triangles, and is of whole ones.
pub fn streamed_lists_read_back()
    ensures triangles { StreamedListsReadBack }
    ensures suits { StreamedListsSuit }
{}

/// A stream of a made column means its contents, and suits a view of its length and stride.
pub fn streamed_columns_read_back()
    ensures contents { StreamedColumnsReadBack }
    ensures suits { StoredColumnsSuit }
{}

/// Each made view stands at the place of its accessor.
pub fn made_views_are_found()
    ensures order { MadeInOrder }
    ensures columns { MadeColumnsFound }
    ensures lists { MadeListsFound }
{}
