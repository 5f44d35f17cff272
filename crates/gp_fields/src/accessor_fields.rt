// The fields of an accessor (glTF 2.0, section 5.1).
ghost use Rattle.std.specs.Prelude.{◌≡◌, codes};
ghost use Rattle.gp_tree.specs.Plain.{plain};
ghost use Rattle.gp_fields.specs.Shapes.{object_of, optional};
ghost use Rattle.gp_fields.specs.Fields.{AccessorFields as Meaning, accessor_fields, sparse_fields};

use crate::reading::{as_object, optional_reference, required_text, required_whole, whole_or};
use crate::sparse_fields::SparseFields;
use gp_tree::{Lexeme, Tree};
use std::marker::Model;

/// An accessor (glTF 2.0, section 5.1) by its fields. Component and type stand as the JSON has them, known or not.
#[derive(Drop)]
pub struct AccessorFields<'a> {
    /// The number of its buffer view, below the number of views; `None` where it is absent.
    pub view: Option<u32>,
    /// `byteOffset` into the buffer view, in bytes; 0 where it is absent.
    pub offset: u32,
    /// `componentType` by its number, as 5126 of a float.
    pub component: u32,
    /// `type` of an element by its name, as `VEC3`.
    pub shape: &'a Lexeme,
    /// The number of elements.
    pub count: u32,
    /// `sparse`; `None` where it is absent.
    pub sparse: Option<SparseFields>,
}

impl<'a> Model for AccessorFields<'a> {
    ghost Value = { Meaning };

    ghost view = { λ a. record { view = a.view; offset = a.offset; component = a.component; shape = a.shape.now; count = a.count; sparse = a.sparse } };
}

impl<'a> AccessorFields<'a> {
    pub(crate) fn read(value: &'a Tree, views: usize) -> Option<AccessorFields<'a>>
        ensures { result ≡ object_of (accessor_fields views) (plain value.now) }
    {
        AccessorFields::of_members(as_object(value)?, views)
    }

    fn of_members(object: &'a Tree, views: usize) -> Option<AccessorFields<'a>>
        ensures { result ≡ accessor_fields views (plain object.now) }
    {
        let view = optional_reference(object, "bufferView", views)?;
        let offset = whole_or(object, "byteOffset", 0)?;
        let component = required_whole(object, "componentType")?;
        let count = required_whole(object, "count")?;
        let shape = required_text(object, "type")?;
        let sparse = optional_sparse(object, views)?;
        Some(AccessorFields {
            view,
            offset,
            component,
            shape,
            count,
            sparse,
        })
    }
}

fn optional_sparse(object: &Tree, views: usize) -> Option<Option<SparseFields>>
    ensures { result ≡ optional (plain object.now) (codes "sparse") (object_of (sparse_fields views)) }
{
    match object.find("sparse") {
        None => Some(None),
        Some(value) => Some(Some(SparseFields::read(value, views)?)),
    }
}
