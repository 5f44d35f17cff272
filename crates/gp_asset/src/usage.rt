// Who uses an accessor.

/// What an accessor is used for.
#[derive(Clone, Copy, Debug, PartialEq, Eq)]
pub enum Role {
    /// An attribute of a primitive (glTF 2.0, section 3.7.2.1).
    Attribute,
    /// An attribute of a morph target of a primitive (section 3.7.2.2).
    Target,
    /// The indices of a primitive (section 5.24).
    Indices,
    /// The inverse bind matrices of a skin (section 5.28).
    InverseBind,
    /// The input of an animation sampler (section 5.8).
    SamplerInput,
    /// The output of an animation sampler (section 5.8).
    SamplerOutput,
}

/// One use of an accessor.
#[derive(Clone, Copy, Debug, PartialEq, Eq)]
pub struct AccessorUse {
    /// The number of the accessor.
    pub accessor: u32,
    /// What it is used for.
    pub role: Role,
    /// Of an attribute, a target and indices the place of the primitive among those of all meshes, else the number of
    /// the skin or the animation.
    pub owner: u32,
}
