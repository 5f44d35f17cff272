// The fields of the sparse part of an accessor (glTF 2.0, sections 5.2 to 5.4).
ghost use Rattle.std.specs.Prelude.{◌≡◌};
ghost use Rattle.gp_tree.specs.Plain.{plain};
ghost use Rattle.gp_fields.specs.Shapes.{object_of};
ghost use Rattle.gp_fields.specs.Fields.{sparse_indices_fields, sparse_values_fields, sparse_fields};

use crate::reading::{as_object, required_reference, required_whole, whole_or};
use gp_tree::Tree;

/// Where the indices of a sparse accessor's substituted elements stand (glTF 2.0, section 5.3).
#[derive(Clone, Copy, Debug, PartialEq, Eq)]
pub struct SparseIndicesFields {
    /// The number of the buffer view, below the number of views.
    pub view: u32,
    /// `byteOffset` into the buffer view, in bytes; 0 where it is absent.
    pub offset: u32,
    /// `componentType` of an index by its number, known or not.
    pub component: u32,
}

impl SparseIndicesFields {
    fn read(value: &Tree, views: usize) -> Option<SparseIndicesFields>
        ensures { result ≡ object_of (sparse_indices_fields views) (plain value.now) }
    {
        let object = as_object(value)?;
        let view = required_reference(object, "bufferView", views)?;
        let offset = whole_or(object, "byteOffset", 0)?;
        let component = required_whole(object, "componentType")?;
        Some(SparseIndicesFields {
            view,
            offset,
            component,
        })
    }
}

/// Where the values of a sparse accessor's substituted elements stand (glTF 2.0, section 5.4).
#[derive(Clone, Copy, Debug, PartialEq, Eq)]
pub struct SparseValuesFields {
    /// The number of the buffer view, below the number of views.
    pub view: u32,
    /// `byteOffset` into the buffer view, in bytes; 0 where it is absent.
    pub offset: u32,
}

impl SparseValuesFields {
    fn read(value: &Tree, views: usize) -> Option<SparseValuesFields>
        ensures { result ≡ object_of (sparse_values_fields views) (plain value.now) }
    {
        let object = as_object(value)?;
        let view = required_reference(object, "bufferView", views)?;
        let offset = whole_or(object, "byteOffset", 0)?;
        Some(SparseValuesFields { view, offset })
    }
}

/// The sparse storage of an accessor's elements that differ (glTF 2.0, section 5.2).
#[derive(Clone, Copy, Debug, PartialEq, Eq)]
pub struct SparseFields {
    /// The number of substituted elements.
    pub count: u32,
    pub indices: SparseIndicesFields,
    pub values: SparseValuesFields,
}

impl SparseFields {
    pub(crate) fn read(value: &Tree, views: usize) -> Option<SparseFields>
        ensures { result ≡ object_of (sparse_fields views) (plain value.now) }
    {
        let object = as_object(value)?;
        let count = required_whole(object, "count")?;
        let indices = SparseIndicesFields::read(object.find("indices")?, views)?;
        let values = SparseValuesFields::read(object.find("values")?, views)?;
        Some(SparseFields {
            count,
            indices,
            values,
        })
    }
}
