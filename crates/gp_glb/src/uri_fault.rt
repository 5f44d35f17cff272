// Why a text gives no bytes of a buffer.
use thiserror::Error;

/// The fault of a text that is to be a data URI, or want of memory (glTF 2.0, section 3.6.1.1).
#[derive(Clone, Copy, Debug, PartialEq, Eq, Error)]
pub enum UriFault {
    /// It begins with neither prefix of a base64 buffer.
    #[error("no data URI of a buffer")]
    Scheme,
    /// What follows the prefix isn't padded base64 (RFC 4648, section 4).
    #[error("not base64")]
    Base64,
    /// Memory for the bytes wasn't found.
    #[error("want of memory")]
    Memory,
}
