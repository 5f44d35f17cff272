// How a buffer view is stored.
use gp_host::Bytes;
use gp_rules::StreamMode;

/// What a stream of EXT_meshopt_compression holds.
#[derive(Clone, Copy, Debug, PartialEq, Eq)]
pub struct Coding {
    /// What the elements are.
    pub mode: StreamMode,
    /// The size of an element in bytes.
    pub stride: u32,
}

/// A buffer view stored as a stream.
#[derive(Drop)]
pub struct Stream {
    /// What the stream holds.
    pub coding: Coding,
    /// Its bytes, fewer than the view has.
    pub bytes: Bytes,
}
