// Numbers and names of the standard, and the kinds that they stand for.
ghost use Rattle.std.specs.Prelude.{◌≡◌};
ghost use Rattle.gp_rules.specs.Kinds.{component_of, shape_of, mode_of};

use crate::accessing::{Component, Shape};
use crate::storage::StreamMode;
use gp_tree::{Lexeme, key_is};

impl Component {
    /// The component with this number (glTF 2.0, section 5.1.3). `None` exactly where none has it.
    #[tactic(auto, unfolding(crate::specs::Kinds::component_of))]
    pub fn from_number(number: u32) -> Option<Component>
        ensures { result ≡ component_of number }
    {
        match number {
            5120 => Some(Component::I8),
            5121 => Some(Component::U8),
            5122 => Some(Component::I16),
            5123 => Some(Component::U16),
            5125 => Some(Component::U32),
            5126 => Some(Component::F32),
            _ => None,
        }
    }
}

impl Shape {
    /// The type of an element with this name (glTF 2.0, section 5.1.6). `None` exactly where none has it.
    #[tactic(auto, unfolding(crate::specs::Kinds::shape_of))]
    pub fn from_name(name: &Lexeme) -> Option<Shape>
        ensures { result ≡ shape_of name.now }
    {
        if key_is(name, "SCALAR") {
            Some(Shape::Scalar)
        } else if key_is(name, "VEC2") {
            Some(Shape::Vec2)
        } else if key_is(name, "VEC3") {
            Some(Shape::Vec3)
        } else if key_is(name, "VEC4") {
            Some(Shape::Vec4)
        } else if key_is(name, "MAT2") {
            Some(Shape::Mat2)
        } else if key_is(name, "MAT3") {
            Some(Shape::Mat3)
        } else if key_is(name, "MAT4") {
            Some(Shape::Mat4)
        } else {
            None
        }
    }
}

impl StreamMode {
    /// The mode with this name (EXT_meshopt_compression, `mode`). `None` exactly where none has it.
    #[tactic(auto, unfolding(crate::specs::Kinds::mode_of))]
    pub fn from_name(name: &Lexeme) -> Option<StreamMode>
        ensures { result ≡ mode_of name.now }
    {
        if key_is(name, "ATTRIBUTES") {
            Some(StreamMode::Attributes)
        } else if key_is(name, "TRIANGLES") {
            Some(StreamMode::Triangles)
        } else if key_is(name, "INDICES") {
            Some(StreamMode::Indices)
        } else {
            None
        }
    }
}
