// The parts of a container, borrowed from its bytes.

/// The parts of a container, each with its padding as it stands in the file (glTF 2.0, GLB file format).
#[derive(Clone, Copy, Debug)]
pub struct Chunks<'a> {
    /// The bytes of the JSON chunk, or of the whole text.
    pub json: &'a [u8],
    /// The bytes of the BIN chunk, where chunk 1 is one.
    pub bin: Option<&'a [u8]>,
    /// The chunks of other types, one after the other, with their headers.
    pub rest: &'a [u8],
}
