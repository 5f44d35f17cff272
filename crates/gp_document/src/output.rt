// What an operation gives.
use gp_host::Bytes;

/// A GLB, its number of buffer views, and how many of them are stored as streams, or were.
#[derive(Drop)]
pub struct Output {
    pub glb: Bytes,
    pub views: u32,
    pub packed: u32,
}
