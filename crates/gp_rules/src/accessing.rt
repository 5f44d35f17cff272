// Accessors: how elements stand in buffer views.

/// The type of a component (glTF 2.0, section 3.6.2.2).
#[derive(Clone, Copy, Debug, PartialEq, Eq)]
pub enum Component {
    /// 5120, a signed byte.
    I8,
    /// 5121, an unsigned byte.
    U8,
    /// 5122, a signed short.
    I16,
    /// 5123, an unsigned short.
    U16,
    /// 5125, an unsigned int.
    U32,
    /// 5126, a float.
    F32,
}

/// The type of an element: how many components it has (glTF 2.0, section 3.6.2.2).
#[derive(Clone, Copy, Debug, PartialEq, Eq)]
pub enum Shape {
    /// `SCALAR`, 1 component.
    Scalar,
    /// `VEC2`, 2 components.
    Vec2,
    /// `VEC3`, 3 components.
    Vec3,
    /// `VEC4`, 4 components.
    Vec4,
    /// `MAT2`, 2 columns of 2 components.
    Mat2,
    /// `MAT3`, 3 columns of 3 components.
    Mat3,
    /// `MAT4`, 4 columns of 4 components.
    Mat4,
}

/// The elements in which an accessor differs from what its own buffer view says (glTF 2.0, section 5.2).
#[derive(Clone, Copy, Debug, PartialEq, Eq)]
pub struct Sparse {
    /// How many there are.
    pub count: u32,
    /// The number of the buffer view of their places.
    pub index_view: u32,
    /// The byte of that view at which the places begin.
    pub index_offset: u32,
    /// The component of a place.
    pub index_component: Component,
    /// The number of the buffer view of their values.
    pub value_view: u32,
    /// The byte of that view at which the values begin.
    pub value_offset: u32,
}

/// A list of elements (glTF 2.0, section 5.1).
#[derive(Clone, Copy, Debug, PartialEq, Eq)]
pub struct Accessor {
    /// The number of its buffer view. Without one its elements are zeros.
    pub view: Option<u32>,
    /// The byte of that view at which its first element begins.
    pub offset: u32,
    /// The component of an element.
    pub component: Component,
    /// How many components an element has.
    pub shape: Shape,
    /// How many elements there are.
    pub count: u32,
    /// The elements that are given apart.
    pub sparse: Option<Sparse>,
}
