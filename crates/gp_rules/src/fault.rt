// Why an asset is refused, and where.
use gp_fields::Place;
use thiserror::Error;

/// The first fault of an asset. They are looked for in the order of these variants, save that the three of buffers are
/// one step, and so are the three of views: there the lowest number decides first. `at` is the lowest place that has the
/// fault, counted from 0.
#[derive(Clone, Copy, Debug, PartialEq, Eq, Error)]
pub enum AssetFault {
    /// A field is missing or has another shape, in item `at` of this member; `at` is 0 where the member itself is of
    /// another kind.
    #[error("a field of another shape in item {at} of {member:?}")]
    Field { member: Place, at: usize },
    /// EXT_meshopt_compression is in use already.
    #[error("packed already")]
    AlreadyPacked,
    /// KHR_meshopt_compression is in use.
    #[error("KHR_meshopt_compression is in use")]
    Foreign,
    /// Buffer `at` has an unknown extension, no bytes, or fewer than its length.
    #[error("buffer {at}")]
    Buffer { at: usize },
    /// The `uri` of buffer `at` is no data URI of a buffer (section 3.6.1.1).
    #[error("the uri of buffer {at} is no data URI of a buffer")]
    Scheme { at: usize },
    /// The data URI of buffer `at` isn't padded base64 (RFC 4648, section 4).
    #[error("the uri of buffer {at} is not base64")]
    Base64 { at: usize },
    /// Buffer view `at` is empty, has another stride than the standard allows, or runs past its buffer.
    #[error("buffer view {at}")]
    View { at: usize },
    /// The EXT_meshopt_compression object of buffer view `at` breaks a rule of that extension.
    #[error("the compressed form of buffer view {at}")]
    Extension { at: usize },
    /// The compressed form of buffer view `at` has a filter.
    #[error("a filter of buffer view {at}")]
    Filter { at: usize },
    /// Accessor `at` is empty, has an unknown component or type, or runs past its buffer view.
    #[error("accessor {at}")]
    Accessor { at: usize },
    /// Buffer views and accessors together stand for more than 2^31 bytes.
    #[error("too much data")]
    TooMuchData,
}

/// Why no asset is given.
#[derive(Clone, Copy, Debug, PartialEq, Eq, Error)]
pub enum AssetRefusal {
    /// The asset has this fault, and none before it.
    #[error("{0}")]
    Fault(AssetFault),
    /// Memory ran out.
    #[error("want of memory")]
    Memory,
}
