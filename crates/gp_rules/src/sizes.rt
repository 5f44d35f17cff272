// How many bytes an element takes (glTF 2.0, sections 3.6.2.2 and 3.6.2.4).
ghost use Rattle.std.specs.Prelude.{◌≡◌, ◌≤◌};
ghost use Rattle.gp_rules.specs.Sizes.{component_size, element_size, padded};

use crate::accessing::{Component, Shape};

impl Component {
    /// The bytes of a component.
    pub fn size(self) -> u32
        ensures { result ≡ component_size self }
    {
        match self {
            Component::I8 | Component::U8 => 1,
            Component::I16 | Component::U16 => 2,
            Component::U32 | Component::F32 => 4,
        }
    }
}

/// The bytes of an element of this component and type. The columns of a matrix begin at multiples of 4.
pub fn element_size(component: Component, shape: Shape) -> u32
    ensures size { result ≡ element_size component shape }
    ensures bound { result ≤ 64 }
{
    let size = component.size();
    match shape {
        Shape::Scalar => size,
        Shape::Vec2 => 2 * size,
        Shape::Vec3 => 3 * size,
        Shape::Vec4 => 4 * size,
        Shape::Mat2 => 2 * padded(2 * size),
        Shape::Mat3 => 3 * padded(3 * size),
        Shape::Mat4 => 4 * padded(4 * size),
    }
}

// The next multiple of 4.
pub(crate) fn padded(bytes: u32) -> u32
    requires { bytes ≤ 64 }
    ensures { result ≡ padded bytes }
{
    bytes.div_ceil(4) * 4
}
