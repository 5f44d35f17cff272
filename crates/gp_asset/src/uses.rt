// Who uses an accessor (glTF 2.0, sections 5.5, 5.24 and 5.28).
ghost use Rattle.std.specs.Prelude.{◌≡◌, ◌++◌, IfOk, OnOk, map, flat_map, option_to_list};
ghost use Rattle.gp_asset.specs.declared.usage.Role.TheVariants.{Target};
ghost use Rattle.gp_asset.specs.Uses.{use_as, entry_uses, primitive_uses, skin_uses, animation_uses, gathered, uses_of_all};

use crate::geometry::Primitive;
use crate::numbers::number_of;
use crate::usage::{AccessorUse, Role};
use gp_fields::{AnimationFields, Entries, Entry, SamplerFields};
use gp_host::NoMemory;
use std::alloc::Global;

/// The uses of accessors: of primitives in order, each with its attributes, targets and indices; then of skins; then of
/// animations. Where 2^32 of them don't fit their numbers, the answer is want of memory.
#[tactic(auto, unfolding(crate::specs::Uses::uses_of_all))]
pub(crate) fn read_uses(
    alloc: Global,
    primitives: &[Primitive],
    skins: &[Option<u32>],
    animations: &[AnimationFields],
) -> Result<Vec<AccessorUse>, NoMemory>
    ensures { IfOk result (λ v. v.items ≡ uses_of_all primitives.now skins.now animations.now) }
{
    let mut uses = Vec::new(alloc);
    push_primitives(&mut uses, primitives)?;
    push_skins(&mut uses, skins)?;
    push_animations(&mut uses, animations)?;
    Ok(uses)
}

fn push_primitives(uses: &mut Vec<AccessorUse>, primitives: &[Primitive]) -> Result<(), NoMemory>
    ensures { OnOk result (uses.new.items ≡ uses.old.items ++ gathered primitive_uses primitives.now) }
{
    'primitives: for at in 0..primitives.len() {
        let owner = number_of(at)?;
        push_primitive(uses, owner, &primitives[at])?;
    }
    Ok(())
}

fn push_primitive(
    uses: &mut Vec<AccessorUse>,
    owner: u32,
    primitive: &Primitive,
) -> Result<(), NoMemory>
    ensures { OnOk result (uses.new.items ≡ uses.old.items ++ primitive_uses owner primitive.now) }
{
    let attributes = primitive.attributes.as_slice();
    push_entries(uses, Role::Attribute, owner, attributes)?;
    push_targets(uses, owner, primitive.targets.as_slice())?;
    push_optional(uses, Role::Indices, owner, primitive.indices)
}

fn push_targets(
    uses: &mut Vec<AccessorUse>,
    owner: u32,
    targets: &[Entries],
) -> Result<(), NoMemory>
    ensures { OnOk result (uses.new.items ≡ uses.old.items ++ flat_map (entry_uses Target owner) targets.now) }
{
    'targets: for at in 0..targets.len() {
        push_entries(uses, Role::Target, owner, targets[at].as_slice())?;
    }
    Ok(())
}

fn push_entries(
    uses: &mut Vec<AccessorUse>,
    role: Role,
    owner: u32,
    entries: &[Entry],
) -> Result<(), NoMemory>
    ensures { OnOk result (uses.new.items ≡ uses.old.items ++ entry_uses role owner entries.now) }
{
    'entries: for at in 0..entries.len() {
        let accessor = entries[at].accessor;
        uses.push(AccessorUse {
            accessor,
            role,
            owner,
        })?;
    }
    Ok(())
}

fn push_optional(
    uses: &mut Vec<AccessorUse>,
    role: Role,
    owner: u32,
    accessor: Option<u32>,
) -> Result<(), NoMemory>
    ensures { OnOk result (uses.new.items ≡ uses.old.items ++ map (use_as role owner) (option_to_list accessor)) }
{
    if let Some(accessor) = accessor {
        uses.push(AccessorUse {
            accessor,
            role,
            owner,
        })?;
    }
    Ok(())
}

fn push_skins(uses: &mut Vec<AccessorUse>, skins: &[Option<u32>]) -> Result<(), NoMemory>
    ensures { OnOk result (uses.new.items ≡ uses.old.items ++ gathered skin_uses skins.now) }
{
    'skins: for at in 0..skins.len() {
        let owner = number_of(at)?;
        push_optional(uses, Role::InverseBind, owner, skins[at])?;
    }
    Ok(())
}

fn push_animations(
    uses: &mut Vec<AccessorUse>,
    animations: &[AnimationFields],
) -> Result<(), NoMemory>
    ensures { OnOk result (uses.new.items ≡ uses.old.items ++ gathered animation_uses animations.now) }
{
    'animations: for at in 0..animations.len() {
        let owner = number_of(at)?;
        let animation = &animations[at];
        push_samplers(uses, owner, &animation.samplers)?;
    }
    Ok(())
}

fn push_samplers(
    uses: &mut Vec<AccessorUse>,
    owner: u32,
    samplers: &[SamplerFields],
) -> Result<(), NoMemory>
    ensures { OnOk result (uses.new.items ≡ uses.old.items ++ animation_uses owner samplers.now) }
{
    'samplers: for at in 0..samplers.len() {
        let sampler = samplers[at];
        uses.push(AccessorUse {
            accessor: sampler.input,
            role: Role::SamplerInput,
            owner,
        })?;
        uses.push(AccessorUse {
            accessor: sampler.output,
            role: Role::SamplerOutput,
            owner,
        })?;
    }
    Ok(())
}
