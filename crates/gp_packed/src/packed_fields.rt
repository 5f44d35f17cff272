//! What an asset reads as after packing, a law that is the contract of a function that does nothing.
ghost use Rattle.gp_packed.specs.PackedFields.{PackedFieldsReadBack};

/// The fields of an asset read back after packing.
pub fn packed_fields_read_back()
    ensures { PackedFieldsReadBack }
{}
