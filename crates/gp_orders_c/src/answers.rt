// What the calls answer.

/// The call is done.
pub const DONE: u32 = 0;

/// A size, a number or a length is none that the call takes.
pub const NO_SHAPE: u32 = 1;

/// There is no memory.
pub const NO_MEMORY: u32 = 2;
