// The numbers that the encoder counts by.

// The numbers `next` and `last`, as a decoder has them there.
#[derive(Clone, Copy)]
pub struct Counters {
    pub next: u32,
    pub last: u32,
}
