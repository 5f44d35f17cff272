// What the calls for streams answer.
ghost use Rattle.std.specs.Prelude.{◌≡◌, MatchResult};
ghost use Rattle.gp_library_c.specs.Answers.{HandedOut, answer_for};
ghost use Rattle.gp_library_c.specs.Places.{place};

use crate::places::hand_out;
use gp_groups::StreamFault;
use gp_host::NoMemory;

/// A decoder's answer where a stride, a count or a length is none that it takes, or the first byte of a stream is another.
pub const NO_STREAM: i32 = -1;

/// An encoder's answer where the call is done.
pub const DONE: u32 = 0;

/// An encoder's answer where a stride, a count, an index or a length is none that it takes.
pub const NO_SHAPE: u32 = 1;

/// An encoder's answer where there is no memory.
pub const NO_MEMORY: u32 = 2;

/// An encoder's answer where what was encoded has no place in the room that was given.
pub const NO_ROOM: u32 = 3;

// The answer of a decoder.
pub fn answer_of(decoded: Result<(), StreamFault>) -> i32
    ensures { result ≡ answer_for decoded }
{
    match decoded {
        Ok(()) => 0,
        Err(StreamFault::Header) => NO_STREAM,
        Err(
            StreamFault::Short
            | StreamFault::Varint
            | StreamFault::Table { entry: _ }
            | StreamFault::Width { at: _ },
        ) => -2,
        Err(StreamFault::Tail { left: _ }) => -3,
    }
}

// Hands an encoded stream out.
pub fn hand_out_stream(encoded: Result<Vec<u8>, NoMemory>, room: &mut [u8], size: &mut usize) -> u32
    ensures { MatchResult encoded
        (λ stream. HandedOut stream.items result (place room.old size.old) (place room.new size.new))
        (λ _. (result ≡ 2) × (place room.new size.new ≡ place room.old size.old)) }
{
    let Ok(stream) = encoded else {
        return NO_MEMORY;
    };
    if hand_out(&stream, room, size) {
        DONE
    } else {
        NO_ROOM
    }
}
