//! The commands and the coders of streams for callers in C: every slice is a pointer and then a length.
//!
//! `library/calls.c` makes the signatures of C's headers of these calls. C can promise no shapes, so each call tests them.
//!
//! - `gp_library_c_pack`, `_unpack`, `_analyse`: a command over bytes in memory ends as the program's `run` does, and its output and
//!   line are handed out (`specs/Ends`). The answer is the exit code: 0, 1, or 4 for want of memory.
//! - `gp_library_c_decode_attributes`, `_triangles`, `_sequence`: 0 where it is done, -1 where a shape is none that the decoder
//!   takes or the first byte is another, -3 where the tail has another length, and -2 for any other fault, as libmeshoptimizer.
//! - `gp_library_c_encode_attributes`, `_triangles`, `_sequence`: 0 where it is done, 1 where a shape is none that the encoder
//!   takes, 2 for want of memory, and 3 where the room is too small for what was encoded, whose size it tells.
//! - `gp_library_c_attributes_bound`, `_triangles_bound`, `_sequence_bound`: the room that libmeshoptimizer asks for.
#![tactic(auto)]

mod answers;
mod attributes;
mod bounds;
mod indices;
mod places;
mod running;
mod sink;
mod source;

pub use answers::{DONE, NO_MEMORY, NO_ROOM, NO_SHAPE, NO_STREAM};
pub use attributes::{gp_library_c_decode_attributes, gp_library_c_encode_attributes};
pub use bounds::{
    gp_library_c_attributes_bound, gp_library_c_sequence_bound, gp_library_c_triangles_bound,
};
pub use indices::{
    gp_library_c_decode_sequence, gp_library_c_decode_triangles, gp_library_c_encode_sequence,
    gp_library_c_encode_triangles,
};
pub use running::{gp_library_c_analyse, gp_library_c_pack, gp_library_c_unpack};
