// The primitives of all meshes (glTF 2.0, sections 5.23 and 5.24).
ghost use Rattle.std.specs.Prelude.{◌≡◌, ◌++◌, IfOk, OnOk};
ghost use Rattle.gp_asset.specs.Primitives.{primitives_of_mesh, primitives_of};

use crate::geometry::Primitive;
use crate::numbers::number_of;
use gp_fields::{MeshFields, PrimitiveFields};
use gp_host::NoMemory;
use std::alloc::Global;

/// The primitives, by mesh and then by place in it. Where 2^32 meshes or primitives of one mesh don't fit their
/// numbers, the answer is want of memory.
pub(crate) fn read_primitives(
    alloc: Global,
    meshes: Vec<MeshFields>,
) -> Result<Vec<Primitive>, NoMemory>
    ensures { IfOk result (λ v. v.items ≡ primitives_of meshes.items) }
{
    let mut primitives = Vec::new(alloc);
    'meshes: for (place, fields) in meshes.into_iter().enumerate() {
        let mesh = number_of(place)?;
        push_primitives(&mut primitives, mesh, fields.primitives)?;
    }
    Ok(primitives)
}

fn push_primitives(
    primitives: &mut Vec<Primitive>,
    mesh: u32,
    fields: Vec<PrimitiveFields>,
) -> Result<(), NoMemory>
    ensures { OnOk result (primitives.new.items ≡ primitives.old.items ++ primitives_of_mesh mesh fields.items) }
{
    'primitives: for (place, primitive) in fields.into_iter().enumerate() {
        let at = number_of(place)?;
        primitives.push(Primitive {
            mesh,
            at,
            mode: primitive.mode,
            attributes: primitive.attributes,
            targets: primitive.targets,
            indices: primitive.indices,
        })?;
    }
    Ok(())
}
