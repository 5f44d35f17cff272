// The fields of a mesh and of its primitives (glTF 2.0, sections 5.23 and 5.24).
ghost use Rattle.std.specs.Prelude.{◌≡◌, IfOk, option_map};
ghost use Rattle.gp_tree.specs.Plain.{plain, plain_items, list};
ghost use Rattle.gp_fields.specs.Shapes.{object_of, list_of};
ghost use Rattle.gp_fields.specs.Fields.{primitive_fields, mesh_fields};

use crate::arrays::read_all;
use crate::attribute_fields::{attributes_of, targets_of};
use crate::geometry::{MeshFields, PrimitiveFields};
use crate::reading::{as_object, optional_reference, whole_or};
use crate::shapes::PrimitiveShape;
use gp_host::NoMemory;
use gp_tree::Tree;
use std::alloc::Global;

impl PrimitiveFields {
    pub(crate) fn read(
        alloc: Global,
        value: &Tree,
        accessors: usize,
    ) -> Result<Option<PrimitiveFields>, NoMemory>
        ensures { IfOk result (λ o. o ≡ object_of (primitive_fields accessors) (plain value.now)) }
    {
        match as_object(value) {
            None => Ok(None),
            Some(object) => PrimitiveFields::of_members(alloc, object, accessors),
        }
    }

    fn of_members(
        alloc: Global,
        object: &Tree,
        accessors: usize,
    ) -> Result<Option<PrimitiveFields>, NoMemory>
        ensures { IfOk result (λ o. o ≡ primitive_fields accessors (plain object.now)) }
    {
        let Some(attributes) = attributes_of(alloc, object, accessors)? else {
            return Ok(None);
        };
        let Some(indices) = optional_reference(object, "indices", accessors) else {
            return Ok(None);
        };
        let Some(mode) = whole_or(object, "mode", 4) else {
            return Ok(None);
        };
        let Some(targets) = targets_of(alloc, object, accessors)? else {
            return Ok(None);
        };
        Ok(Some(PrimitiveFields {
            mode,
            attributes,
            targets,
            indices,
        }))
    }
}

impl MeshFields {
    pub(crate) fn read(
        alloc: Global,
        value: &Tree,
        accessors: usize,
    ) -> Result<Option<MeshFields>, NoMemory>
        ensures { IfOk result (λ o. o ≡ object_of (mesh_fields accessors) (plain value.now)) }
    {
        match as_object(value) {
            None => Ok(None),
            Some(object) => MeshFields::of_members(alloc, object, accessors),
        }
    }

    fn of_members(
        alloc: Global,
        object: &Tree,
        accessors: usize,
    ) -> Result<Option<MeshFields>, NoMemory>
        ensures { IfOk result (λ o. o ≡ mesh_fields accessors (plain object.now)) }
    {
        let Some(Tree::List(items)) = object.find("primitives") else {
            return Ok(None);
        };
        let Some(primitives) = read_all(alloc, items.as_slice(), &PrimitiveShape { accessors })?
        else {
            return Ok(None);
        };
        Ok(Some(MeshFields { primitives }))
    }
}
