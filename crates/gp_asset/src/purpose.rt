// What an asset is read for.

/// What an asset is read for.
#[derive(Clone, Copy, Debug, PartialEq, Eq)]
pub enum Form {
    /// For packing: EXT_meshopt_compression may not be in use yet.
    Plain,
    /// For all else.
    Any,
}
