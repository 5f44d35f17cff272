// Elements of small accessors, with bytes and numbers that were written by hand.
ghost use Rattle.std.specs.Prelude.{◌≡◌, ◌⊎◌, ◌*◌, true, length, Some, None};
ghost use Rattle.gp_rules.specs.Accessors.{is_index};
ghost use Rattle.gp_rules.specs.Sizes.{component_size};
ghost use Rattle.gp_elements.specs.Elements.{IsNumberSize};
ghost use Rattle.gp_rules.specs.declared.accessing.Accessor.{Accessor as AccessorFields};

use super::*;
use crate::resolving::resolve_accessor;
use gp_asset::ViewBytes;
use gp_rules::{Accessor, Component, Shape, Sparse, View, element_size};

// An accessor of buffer view 0.
fn accessor(component: Component, shape: Shape, offset: u32, count: u32) -> Accessor
    ensures { result ≡ record { view = Some 0; offset = offset; component = component; shape = shape; count = count; sparse = None } }
{
    Accessor {
        view: Some(0),
        offset,
        component,
        shape,
        count,
        sparse: None,
    }
}

// Whether these are all of its elements, one by one, in order, and with any count of indices that were passed.
fn has_items(elements: &Elements<'_>, items: &[&[u8]]) -> bool {
    let mut passed: usize = 0;
    for at in 0..elements.len() {
        if items.get(at) != Some(&elements.at(at)) {
            return false;
        }
        if items.get(at) != Some(&elements.at_next(at, &mut passed)) {
            return false;
        }
        for mut wrong in [0, 1, 2, 3, 4, usize::MAX] {
            if items.get(at) != Some(&elements.at_next(at, &mut wrong)) {
                return false;
            }
        }
    }
    elements.len() == items.len()
}

#[test]
fn elements_without_gaps(rt: HostRuntime) {
    // 1.0 and -2.0
    let floats = [0, 0, 128, 63, 0, 0, 0, 192];
    let scalar = accessor(Component::F32, Shape::Scalar, 0, 2);
    let elements = Elements::over(&floats, &scalar, None);
    assert!(rt; has_items(&elements, &[&[0, 0, 128, 63], &[0, 0, 0, 192]]));

    // the second one, up to the last byte
    let last = accessor(Component::F32, Shape::Scalar, 4, 1);
    let elements = Elements::over(&floats, &last, None);
    assert!(rt; has_items(&elements, &[&[0, 0, 0, 192]]));

    // two columns of two bytes, each in a word of its own
    let matrix = accessor(Component::U8, Shape::Mat2, 0, 1);
    let elements = Elements::over(&floats, &matrix, None);
    assert!(rt; has_items(&elements, &[&floats]));

    let none = accessor(Component::F32, Shape::Mat4, 9, 0);
    assert!(rt; has_items(&Elements::over(&floats, &none, None), &[]));
}

#[test]
fn elements_at_a_stride(rt: HostRuntime) {
    let shorts = [90, 91, 1, 2, 3, 4, 5, 6, 92, 93, 7, 8, 9, 10, 11, 12];
    let vector = accessor(Component::I16, Shape::Vec3, 2, 2);
    let elements = Elements::over(&shorts, &vector, Some(8));
    assert!(rt; has_items(&elements, &[&[1, 2, 3, 4, 5, 6], &[7, 8, 9, 10, 11, 12]]));

    // elements that overlap
    let elements = Elements::over(&shorts, &vector, Some(2));
    assert!(rt; has_items(&elements, &[&[1, 2, 3, 4, 5, 6], &[3, 4, 5, 6, 92, 93]]));
}

#[test]
fn elements_without_a_view(rt: HostRuntime) {
    let pair = accessor(Component::U8, Shape::Vec2, 0, 3);
    assert!(rt; has_items(&Elements::zeros(&pair), &[&[0, 0], &[0, 0], &[0, 0]]));

    let matrix = accessor(Component::F32, Shape::Mat4, 0, 1);
    assert!(rt; has_items(&Elements::zeros(&matrix), &[&[0; 64]]));
}

#[test]
fn elements_as_numbers(rt: HostRuntime) {
    let rows: [(&[u8], Component, u32); 6] = [
        (&[1], Component::U8, 1),
        (&[255], Component::U8, 255),
        (&[1, 2], Component::U16, 0x0201),
        (&[255, 255], Component::U16, 65535),
        (&[1, 2, 3, 4], Component::U32, 0x04030201),
        (&[255, 255, 255, 255], Component::U32, 4294967295),
    ];
    for (bytes, component, number) in rows {
        assert!(rt; element_size(component, Shape::Scalar) as usize <= bytes.len());
        let scalar = accessor(component, Shape::Scalar, 0, 1);
        let elements = Elements::over(bytes, &scalar, None);
        assert!(rt; elements.len() == 1);
        let size = elements.at(0).len();
        assert!(rt; size == 1 || size == 2 || size == 4);
        assert_eq!(rt; elements.number(0), number, "{number}");
    }
}

// The contents of three views.
#[derive(Drop)]
struct Three<'a> {
    indices: &'a [u8],
    values: &'a [u8],
    base: &'a [u8],
}

impl<'a> ViewBytes for Three<'a> {
    ghost use Rattle.std.specs.Prelude.{◌∷◌, [], Some};

    ghost views = { λ three. Some three.indices.now ∷ Some three.values.now ∷ Some three.base.now ∷ [] };

    fn has(&self, at: usize) -> bool {
        at < 3
    }

    fn view(&self, at: usize) -> &[u8] {
        match at {
            0 => self.indices,
            1 => self.values,
            _ => self.base,
        }
    }
}

// A view of so many bytes.
fn view(length: u32) -> View
    ensures { result ≡ record { buffer = 0; offset = 0; length = length; stride = None; packed = None } }
{
    View {
        buffer: 0,
        offset: 0,
        length,
        stride: None,
        packed: None,
    }
}

// The component of indices of so many bytes.
fn index_component(size: u32) -> Component
    requires { IsNumberSize size }
    ensures size { component_size result ≡ size }
    ensures index { is_index result ≡ true }
{
    match size {
        1 => Component::U8,
        2 => Component::U16,
        _ => Component::U32,
    }
}

// What three elements of four bytes, in the last view or in none, resolve to, with so many indices of a size.
fn resolve_three<'a>(
    views: &'a Three<'_>,
    has_view: bool,
    size: u32,
    count: u32,
) -> Option<Elements<'a>>
    requires count { (count ≡ 1) ⊎ (count ≡ 2) ⊎ (count ≡ 3) }
    requires size { IsNumberSize size }
    requires indices { length views.now.indices.now ≡ count * size }
    requires values { length views.now.values.now ≡ count * 4 }
    requires base { length views.now.base.now ≡ 12 }
{
    let accessor = Accessor {
        view: if has_view { Some(2) } else { None },
        offset: 0,
        component: Component::U8,
        shape: Shape::Vec4,
        count: 3,
        sparse: Some(Sparse {
            count,
            index_view: 0,
            index_offset: 0,
            index_component: index_component(size),
            value_view: 1,
            value_offset: 0,
        }),
    };
    let all = [view(count * size), view(count * 4), view(12)];
    resolve_accessor(&all, views, &accessor)
}

// Elements with a `sparse`.
struct Row {
    // Whether they are in a view too.
    has_view: bool,
    // The bytes of an index.
    size: u32,
    indices: &'static [u8],
    values: &'static [u8],
    // None where it isn't resolvable.
    items: Option<[[u8; 4]; 3]>,
}

// The bytes of that view.
const BASE: [u8; 12] = [10, 11, 12, 13, 20, 21, 22, 23, 30, 31, 32, 33];

const ROWS: [Row; 17] = [
    Row {
        has_view: false,
        size: 1,
        indices: &[1],
        values: &[1, 2, 3, 4],
        items: Some([[0, 0, 0, 0], [1, 2, 3, 4], [0, 0, 0, 0]]),
    },
    Row {
        has_view: false,
        size: 1,
        indices: &[0, 2],
        values: &[1, 2, 3, 4, 5, 6, 7, 8],
        items: Some([[1, 2, 3, 4], [0, 0, 0, 0], [5, 6, 7, 8]]),
    },
    Row {
        has_view: true,
        size: 1,
        indices: &[0],
        values: &[1, 2, 3, 4],
        items: Some([[1, 2, 3, 4], [20, 21, 22, 23], [30, 31, 32, 33]]),
    },
    Row {
        has_view: true,
        size: 1,
        indices: &[2],
        values: &[1, 2, 3, 4],
        items: Some([[10, 11, 12, 13], [20, 21, 22, 23], [1, 2, 3, 4]]),
    },
    Row {
        has_view: true,
        size: 2,
        indices: &[0, 0, 2, 0],
        values: &[1, 2, 3, 4, 5, 6, 7, 8],
        items: Some([[1, 2, 3, 4], [20, 21, 22, 23], [5, 6, 7, 8]]),
    },
    Row {
        has_view: true,
        size: 4,
        indices: &[1, 0, 0, 0],
        values: &[1, 2, 3, 4],
        items: Some([[10, 11, 12, 13], [1, 2, 3, 4], [30, 31, 32, 33]]),
    },
    Row {
        has_view: false,
        size: 4,
        indices: &[1, 0, 0, 0, 2, 0, 0, 0],
        values: &[1, 2, 3, 4, 5, 6, 7, 8],
        items: Some([[0, 0, 0, 0], [1, 2, 3, 4], [5, 6, 7, 8]]),
    },
    // as many as the accessor has
    Row {
        has_view: true,
        size: 1,
        indices: &[0, 1, 2],
        values: &[1, 2, 3, 4, 5, 6, 7, 8, 9, 10, 11, 12],
        items: Some([[1, 2, 3, 4], [5, 6, 7, 8], [9, 10, 11, 12]]),
    },
    Row {
        has_view: false,
        size: 2,
        indices: &[0, 0, 1, 0, 2, 0],
        values: &[1, 2, 3, 4, 5, 6, 7, 8, 9, 10, 11, 12],
        items: Some([[1, 2, 3, 4], [5, 6, 7, 8], [9, 10, 11, 12]]),
    },
    // 3, 255, 256 and 2^24 are past the last element
    Row {
        has_view: false,
        size: 1,
        indices: &[3],
        values: &[1, 2, 3, 4],
        items: None,
    },
    Row {
        has_view: true,
        size: 1,
        indices: &[0, 255],
        values: &[1, 2, 3, 4, 5, 6, 7, 8],
        items: None,
    },
    Row {
        has_view: true,
        size: 2,
        indices: &[0, 1],
        values: &[1, 2, 3, 4],
        items: None,
    },
    Row {
        has_view: false,
        size: 4,
        indices: &[0, 0, 0, 1],
        values: &[1, 2, 3, 4],
        items: None,
    },
    // equal ones, and falling ones
    Row {
        has_view: false,
        size: 1,
        indices: &[1, 1],
        values: &[1, 2, 3, 4, 5, 6, 7, 8],
        items: None,
    },
    Row {
        has_view: true,
        size: 2,
        indices: &[0, 0, 1, 0, 1, 0],
        values: &[1, 2, 3, 4, 5, 6, 7, 8, 1, 2, 3, 4],
        items: None,
    },
    Row {
        has_view: true,
        size: 1,
        indices: &[2, 0],
        values: &[1, 2, 3, 4, 5, 6, 7, 8],
        items: None,
    },
    Row {
        has_view: false,
        size: 4,
        indices: &[1, 0, 0, 0, 0, 0, 0, 0],
        values: &[1, 2, 3, 4, 5, 6, 7, 8],
        items: None,
    },
];

#[test]
fn values_stand_in_place_where_indices_rise(rt: HostRuntime) {
    for row in &ROWS {
        let views = Three {
            indices: row.indices,
            values: row.values,
            base: &BASE,
        };
        let count = row.values.len() / 4;
        assert!(rt; row.size == 1 || row.size == 2 || row.size == 4);
        assert!(rt; count == 1 || count == 2 || count == 3);
        assert!(rt; row.values.len() == count * 4);
        assert!(rt; row.indices.len() == count * row.size as usize);
        match resolve_three(&views, row.has_view, row.size, count as u32) {
            None => assert!(rt; row.items.is_none()),
            Some(elements) => match &row.items {
                None => assert!(rt; false),
                Some(items) => assert!(rt;
                    has_items(&elements, &[&items[0], &items[1], &items[2]])
                ),
            },
        }
    }
}
