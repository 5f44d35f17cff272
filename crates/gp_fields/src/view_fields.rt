// The fields of a buffer view (glTF 2.0, section 5.11), and of its compressed form (EXT_meshopt_compression).
ghost use Rattle.std.specs.Prelude.{◌≡◌, codes, unwrap_or, option_map};
ghost use Rattle.gp_tree.specs.Plain.{plain};
ghost use Rattle.gp_fields.specs.Shapes.{object_of, optional};
ghost use Rattle.gp_fields.specs.Fields.{PackedFields as PackedMeaning, ViewFields as ViewMeaning, packed_fields, packed_of, view_fields};

use crate::reading::{
    as_object, optional_text, optional_whole, required_reference, required_text, required_whole,
    whole_or,
};
use gp_tree::{Lexeme, Tree};
use std::marker::Model;

/// The extension object of a compressed buffer view (EXT_meshopt_compression) by its fields. Mode and filter stand as
/// they are spelled, known or not.
#[derive(Drop)]
pub struct PackedFields<'a> {
    /// The number of the buffer of the compressed bytes, below the number of buffers.
    pub buffer: u32,
    /// `byteOffset` into that buffer, in bytes; 0 where it is absent.
    pub offset: u32,
    /// `byteLength` of the compressed bytes.
    pub length: u32,
    /// `byteStride` of an element once it is decoded, in bytes.
    pub stride: u32,
    /// The number of elements.
    pub count: u32,
    /// `mode`, as `ATTRIBUTES`, `TRIANGLES` or `INDICES`.
    pub mode: &'a Lexeme,
    /// `filter`; `None` where it is absent, which means the filter `NONE`.
    pub filter: Option<&'a Lexeme>,
}

impl<'a> Model for PackedFields<'a> {
    ghost Value = { PackedMeaning };

    ghost view = { λ p. record { buffer = p.buffer; offset = p.offset; length = p.length; stride = p.stride; count = p.count; mode = p.mode.now; filter = unwrap_or (option_map (λ s. s.now) p.filter) (codes "NONE") } };
}

impl<'a> PackedFields<'a> {
    fn read(value: &'a Tree, buffers: usize) -> Option<PackedFields<'a>>
        ensures { result ≡ object_of (packed_fields buffers) (plain value.now) }
    {
        PackedFields::of_members(as_object(value)?, buffers)
    }

    fn of_members(object: &'a Tree, buffers: usize) -> Option<PackedFields<'a>>
        ensures { result ≡ packed_fields buffers (plain object.now) }
    {
        let buffer = required_reference(object, "buffer", buffers)?;
        let length = required_whole(object, "byteLength")?;
        let stride = required_whole(object, "byteStride")?;
        let count = required_whole(object, "count")?;
        let offset = whole_or(object, "byteOffset", 0)?;
        let mode = required_text(object, "mode")?;
        let filter = optional_text(object, "filter")?;
        Some(PackedFields {
            buffer,
            offset,
            length,
            stride,
            count,
            mode,
            filter,
        })
    }
}

/// A buffer view (glTF 2.0, section 5.11) by its fields.
#[derive(Drop)]
pub struct ViewFields<'a> {
    /// The number of its buffer, below the number of buffers.
    pub buffer: u32,
    /// `byteOffset` into that buffer, in bytes; 0 where it is absent.
    pub offset: u32,
    /// `byteLength`, in bytes.
    pub length: u32,
    /// `byteStride`, in bytes; `None` where it is absent.
    pub stride: Option<u32>,
    /// Its compressed form; `None` where it has no extension `EXT_meshopt_compression`.
    pub packed: Option<PackedFields<'a>>,
}

impl<'a> Model for ViewFields<'a> {
    ghost Value = { ViewMeaning };

    ghost view = { λ v. record { buffer = v.buffer; offset = v.offset; length = v.length; stride = v.stride; packed = v.packed } };
}

impl<'a> ViewFields<'a> {
    pub(crate) fn read(value: &'a Tree, buffers: usize) -> Option<ViewFields<'a>>
        ensures { result ≡ object_of (view_fields buffers) (plain value.now) }
    {
        ViewFields::of_members(as_object(value)?, buffers)
    }

    fn of_members(object: &'a Tree, buffers: usize) -> Option<ViewFields<'a>>
        ensures { result ≡ view_fields buffers (plain object.now) }
    {
        let buffer = required_reference(object, "buffer", buffers)?;
        let length = required_whole(object, "byteLength")?;
        let offset = whole_or(object, "byteOffset", 0)?;
        let stride = optional_whole(object, "byteStride")?;
        let packed = packed_of_view(object, buffers)?;
        Some(ViewFields {
            buffer,
            offset,
            length,
            stride,
            packed,
        })
    }
}

fn packed_of_view<'a>(view: &'a Tree, buffers: usize) -> Option<Option<PackedFields<'a>>>
    ensures { result ≡ packed_of buffers (plain view.now) }
{
    match view.find("extensions") {
        None => Some(None),
        Some(value) => optional_packed(as_object(value)?, buffers),
    }
}

fn optional_packed<'a>(extensions: &'a Tree, buffers: usize) -> Option<Option<PackedFields<'a>>>
    ensures { result ≡ optional (plain extensions.now) (codes "EXT_meshopt_compression") (object_of (packed_fields buffers)) }
{
    match extensions.find("EXT_meshopt_compression") {
        None => Some(None),
        Some(value) => Some(Some(PackedFields::read(value, buffers)?)),
    }
}
