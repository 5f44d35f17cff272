// Why a folder refused.
use thiserror::Error;

/// Why a file wasn't taken.
#[derive(Clone, Copy, Debug, PartialEq, Eq, Error)]
pub enum TakeRefusal {
    /// The folder failed. It has counted the fault.
    #[error("the folder failed")]
    Failed,
    /// There is no file with this name.
    #[error("missing")]
    Missing,
    /// The file has more bytes than the limit.
    #[error("too large")]
    TooLarge,
    /// Want of memory.
    #[error("want of memory")]
    Memory,
}

/// Why a file wasn't put.
#[derive(Clone, Copy, Debug, PartialEq, Eq, Error)]
pub enum PutRefusal {
    /// The folder failed. It has counted the fault.
    #[error("the folder failed")]
    Failed,
    /// Want of memory.
    #[error("want of memory")]
    Memory,
}
