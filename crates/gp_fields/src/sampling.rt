// The samplers of an animation (glTF 2.0, sections 5.5 and 5.8).
ghost use Rattle.std.specs.Prelude.{◌≡◌, IfOk, option_map};
ghost use Rattle.gp_tree.specs.Plain.{plain, plain_items, list};
ghost use Rattle.gp_fields.specs.Shapes.{object_of, list_of};
ghost use Rattle.gp_fields.specs.Fields.{sampler_fields, animation_fields};

use crate::arrays::read_all;
use crate::reading::{as_object, required_reference};
use crate::shapes::SamplerShape;
use gp_host::NoMemory;
use gp_tree::Tree;
use std::alloc::Global;
use std::marker::Model;

/// A sampler of an animation (glTF 2.0, section 5.8) by its fields.
#[derive(Clone, Copy, Debug, PartialEq, Eq)]
pub struct SamplerFields {
    /// The number of the accessor of the times of its keyframes.
    pub input: u32,
    /// The number of the accessor of the values at its keyframes.
    pub output: u32,
}

impl SamplerFields {
    pub(crate) fn read(value: &Tree, accessors: usize) -> Option<SamplerFields>
        ensures { result ≡ object_of (sampler_fields accessors) (plain value.now) }
    {
        let object = as_object(value)?;
        let input = required_reference(object, "input", accessors)?;
        let output = required_reference(object, "output", accessors)?;
        Some(SamplerFields { input, output })
    }
}

/// An animation (glTF 2.0, section 5.5) by its fields.
#[derive(Drop)]
pub struct AnimationFields {
    /// Its samplers, in order; there may be none.
    pub samplers: Vec<SamplerFields>,
}

impl Model for AnimationFields {
    ghost use Rattle.std.specs.Prelude.{List};
    ghost use Rattle.gp_fields.specs.declared.sampling.SamplerFields.{SamplerFields};

    ghost Value = { List SamplerFields };

    ghost view = { λ animation. animation.samplers.items };
}

impl AnimationFields {
    pub(crate) fn read(
        alloc: Global,
        value: &Tree,
        accessors: usize,
    ) -> Result<Option<AnimationFields>, NoMemory>
        ensures { IfOk result (λ o. o ≡ object_of (animation_fields accessors) (plain value.now)) }
    {
        match as_object(value) {
            None => Ok(None),
            Some(object) => AnimationFields::of_members(alloc, object, accessors),
        }
    }

    fn of_members(
        alloc: Global,
        object: &Tree,
        accessors: usize,
    ) -> Result<Option<AnimationFields>, NoMemory>
        ensures { IfOk result (λ o. o ≡ animation_fields accessors (plain object.now)) }
    {
        let Some(Tree::List(items)) = object.find("samplers") else {
            return Ok(None);
        };
        let Some(samplers) = read_all(alloc, items.as_slice(), &SamplerShape { accessors })? else {
            return Ok(None);
        };
        Ok(Some(AnimationFields { samplers }))
    }
}
