// Why a text is refused.
use thiserror::Error;

/// Why a text is refused, in the order in which the faults are looked for: a text that has several
/// is refused for the first of them, wherever each stands.
#[derive(Clone, Copy, Debug, PartialEq, Eq, Error)]
pub enum JsonFault {
    /// The bytes are not UTF-8 (RFC 3629).
    #[error("the bytes are not UTF-8")]
    NotUtf8,
    /// A `[` or `{` that stands where a value may begin would be the 129th that is open. What comes
    /// behind it makes no difference.
    #[error("more than 128 lists and objects stand in each other")]
    TooDeep,
    /// The text is not in the grammar (RFC 8259, section 2). A byte order mark is not.
    #[error("the text is not JSON")]
    NotJson,
    /// An object, however deep, has two keys that stand for the same units (RFC 8259, sections 4
    /// and 8.3).
    #[error("an object has two equal keys")]
    DuplicateKey,
}

/// Why `read` gives no tree.
#[derive(Clone, Copy, Debug, PartialEq, Eq, Error)]
pub enum JsonRefusal {
    /// The text has this fault, and none before it.
    #[error("{0}")]
    Fault(JsonFault),
    /// Memory ran out.
    #[error("want of memory")]
    Memory,
}
