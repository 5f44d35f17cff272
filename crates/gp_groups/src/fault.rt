// Why a stream is refused.
use thiserror::Error;

/// Why bytes are no stream of EXT_meshopt_compression: the first fault on the way from the front to the end.
#[derive(Clone, Copy, Debug, PartialEq, Eq, Error)]
pub enum StreamFault {
    /// The first byte is another than the mode's.
    #[error("another first byte")]
    Header,
    /// A byte is needed, and none is left.
    #[error("the bytes run out")]
    Short,
    /// The fifth byte of a varint is over 15, so that its value has no place in 32 bits.
    #[error("a varint past 32 bits")]
    Varint,
    /// Of the entries 0 to 13 of the table of a triangle stream this one is the first with a half of 15.
    #[error("entry {entry} of the table has a half of 15")]
    Table { entry: u8 },
    /// Of the indices, counted from 0 over the whole list, this one is the first over 65535, where they have two bytes.
    #[error("index {at} has no place in two bytes")]
    Width { at: usize },
    /// Behind what was read stand so many bytes, which is not the length of the tail.
    #[error("a tail of {left} bytes")]
    Tail { left: usize },
}
