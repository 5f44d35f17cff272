// Buffer views, plain and compressed.

/// How a compressed buffer view is encoded (EXT_meshopt_compression, `mode`).
#[derive(Clone, Copy, Debug, PartialEq, Eq)]
pub enum StreamMode {
    /// `ATTRIBUTES`.
    Attributes,
    /// `TRIANGLES`.
    Triangles,
    /// `INDICES`.
    Indices,
}

/// The EXT_meshopt_compression object of a buffer view. Numbers of bytes, save the two counts.
#[derive(Clone, Copy, Debug, PartialEq, Eq)]
pub struct Packed {
    /// The number of the buffer that holds the stream.
    pub buffer: u32,
    /// Where the stream begins in that buffer.
    pub offset: u32,
    /// The length of the stream.
    pub length: u32,
    /// The size of an element.
    pub stride: u32,
    /// The number of elements.
    pub count: u32,
    /// How the elements are encoded.
    pub mode: StreamMode,
}

/// A buffer view (glTF 2.0, section 5.11). Numbers of bytes.
#[derive(Clone, Copy, Debug, PartialEq, Eq)]
pub struct View {
    /// The number of its buffer.
    pub buffer: u32,
    /// Where it begins in that buffer.
    pub offset: u32,
    /// Its length.
    pub length: u32,
    /// The distance of its elements, where it says one.
    pub stride: Option<u32>,
    /// Its compressed form, where it has one.
    pub packed: Option<Packed>,
}
