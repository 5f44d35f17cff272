// Groups that were moved.
use gp_alias::{Corners, Group};
use gp_host::Bytes;

/// A group with equal records as one and its vertices and triangles in their new order.
#[derive(Drop)]
pub struct MovedGroup {
    /// The group as it was.
    pub group: Group,
    /// How many bytes a record has.
    pub size: usize,
    /// The records in their new order, joined.
    pub records: Bytes,
    /// The lists in their new order, over the numbers of records.
    pub corners: Corners,
}
