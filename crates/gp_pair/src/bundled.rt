// What bundling gives.
use gp_host::Bytes;

/// A GLB with all buffers in it, and how many bytes were taken for it: those of the file and of the files of its buffers.
#[derive(Drop)]
pub struct Bundled {
    pub glb: Bytes,
    pub taken: u64,
}
