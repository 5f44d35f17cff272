//! Laws of moved groups, each the contract of a function that does nothing.
ghost use Rattle.gp_mover.specs.Laws.{OrdersAreChosen, RecordsAreKept, RecordsAreSized, NumbersAreBelow, LengthsAreKept, ColumnsAreThere, RecordsHaveBytes, GroupsHaveColumns, ReadAttributesAreThere};

/// For the lists of a group orders of their triangles are chosen; so what is said of such orders holds of a moved group.
pub fn orders_are_chosen()
    ensures { OrdersAreChosen }
{}

/// The new records are the old ones, each once.
pub fn records_are_kept()
    ensures { RecordsAreKept }
{}

/// Each record has the bytes of an element of each column.
pub fn records_are_sized()
    ensures { RecordsAreSized }
{}

/// The new lists have whole triangles of the new records.
pub fn numbers_are_below()
    ensures { NumbersAreBelow }
{}

/// Each list is as long as it was.
pub fn lengths_are_kept()
    ensures { LengthsAreKept }
{}

/// The columns of a group that may move are accessors of the asset.
pub fn columns_are_there()
    ensures { ColumnsAreThere }
{}

/// Where a group that may move has a column, a record has a byte, and there is a vertex.
pub fn records_have_bytes()
    ensures { RecordsHaveBytes }
{}

/// Where each attribute is an accessor of the asset, a group of the asset that may move has a column.
pub fn groups_have_columns()
    ensures { GroupsHaveColumns }
{}

/// The attributes of an asset that was read are accessors of the asset.
pub fn read_attributes_are_there()
    ensures { ReadAttributesAreThere }
{}
