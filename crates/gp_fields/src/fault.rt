// Why fields are refused, and where.
use gp_host::NoMemory;
use thiserror::Error;

/// The root of the JSON (glTF 2.0, section 5.17) and those of its members that are read, in the order in which their
/// fields are looked at.
#[derive(Clone, Copy, Debug, PartialEq, Eq)]
pub enum Place {
    /// The root itself.
    Root,
    /// `extensionsUsed` (section 3.12).
    ExtensionsUsed,
    /// `extensionsRequired` (section 3.12).
    ExtensionsRequired,
    /// `buffers` (section 5.10).
    Buffers,
    /// `bufferViews` (section 5.11).
    BufferViews,
    /// `accessors` (section 5.1).
    Accessors,
    /// `meshes` (section 5.23).
    Meshes,
    /// `skins` (section 5.28).
    Skins,
    /// `animations` (section 5.5).
    Animations,
    /// `images` (section 5.18).
    Images,
}

/// Where a field is missing or of another shape.
#[derive(Clone, Copy, Debug, PartialEq, Eq, Error)]
#[error("a field of another shape in item {at} of {member:?}")]
pub struct FieldFault {
    /// The member of the root, or the root itself.
    pub member: Place,
    /// The number of the item in that member, counted from 0; 0 too where the member itself is of another kind.
    pub at: usize,
}

/// Why [`read_fields`](crate::read_fields) gives no fields.
#[derive(Clone, Copy, Debug, PartialEq, Eq, Error)]
pub enum FieldRefusal {
    /// There is this fault, and none before it.
    #[error("{0}")]
    Fault(FieldFault),
    /// Memory ran out.
    #[error("want of memory")]
    Memory,
}

impl From<NoMemory> for FieldRefusal {
    ghost use Rattle.std.specs.Prelude.{◌≡◌};
    ghost use Rattle.gp_fields.specs.declared.fault.FieldRefusal.TheVariants.{Memory};

    ghost from_gives = { λ _ refusal. refusal ≡ Memory };

    fn from(_: NoMemory) -> Self {
        FieldRefusal::Memory
    }
}
