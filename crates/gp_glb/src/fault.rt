// Why bytes are no container, and where.
use thiserror::Error;

/// The first fault of a container. They are looked for in the order of these variants (glTF 2.0, GLB file format).
#[derive(Clone, Copy, Debug, PartialEq, Eq, Error)]
pub enum GlbFault {
    /// The bytes end within the header, which has 12.
    #[error("too short")]
    TooShort,
    /// The magic number isn't that of `glTF`.
    #[error("not a GLB")]
    Magic,
    /// The container is of a version other than 2.
    #[error("another version")]
    Version,
    /// The stated total is smaller than a header, or larger than the bytes at hand.
    #[error("another length")]
    Length,
    /// Chunk `at`, counted from 0, isn't whole, or is of a type that may not stand there. Chunk 0 is JSON and no other is; BIN is chunk 1.
    #[error("a broken chunk {at}")]
    Chunk { at: usize },
    /// The JSON is longer than 2^26 bytes, in a chunk with its padding.
    #[error("the JSON is too large")]
    JsonTooLarge,
}
