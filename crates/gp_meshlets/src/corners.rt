// The corners of a list of triangles, wherever they stand.
ghost use Rattle.std.specs.Prelude.{◌≡◌, ◌*◌, ◌/◌, ◌<◌, ◌+◌, ◌^◌, ◌∷◌, length, get_or, drop};
ghost use Rattle.gp_meshlets.specs.Corners.{corners_of, HasNumbers};

use gp_elements::Elements;

/// The corners of a list of triangles, three a triangle. A list is not written out to be gone through.
#[derive(Drop)]
pub(crate) enum Corners<'a> {
    /// Numbers that are written out.
    Listed(&'a [u32]),
    /// The numbers in an accessor.
    Numbered(Elements<'a>),
    /// So many vertices, each once, in their order.
    Rising(u32),
}

/// The vertices at the corners of a triangle.
#[derive(Clone, Copy)]
pub(crate) struct Triangle {
    pub(crate) a: u32,
    pub(crate) b: u32,
    pub(crate) c: u32,
}

impl<'a> Corners<'a> {
    /// How many triangles there are.
    pub(crate) fn triangles(&self) -> usize
        ensures count { result ≡ length (corners_of self.now) / 3 }
        ensures few { length (corners_of self.now) < 2 ^ 64 }
    {
        self.len() / 3
    }

    // How many corners there are.
    fn len(&self) -> usize
        ensures { result ≡ length (corners_of self.now) }
    {
        match self {
            Corners::Listed(list) => list.len(),
            Corners::Numbered(elements) => elements.len(),
            Corners::Rising(count) => *count as usize,
        }
    }

    /// Triangle `at`. `passed` is what `Elements::at_next` keeps; any value gives the same triangle.
    pub(crate) fn triangle(&self, at: usize, passed: &mut usize) -> Triangle
        requires within { at < length (corners_of self.now) / 3 }
        requires few { length (corners_of self.now) < 2 ^ 64 }
        requires numbers { HasNumbers self.now }
        ensures { drop (3 * at) (corners_of self.now) ≡ result.a ∷ result.b ∷ result.c ∷ drop (3 * (at + 1)) (corners_of self.now) }
    {
        let corner = 3 * at;
        let a = self.corner(corner, passed);
        let b = self.corner(corner + 1, passed);
        let c = self.corner(corner + 2, passed);
        Triangle { a, b, c }
    }

    // Corner `at`.
    fn corner(&self, at: usize, passed: &mut usize) -> u32
        requires within { at < length (corners_of self.now) }
        requires numbers { HasNumbers self.now }
        ensures { result ≡ get_or (corners_of self.now) at 0 }
    {
        match self {
            Corners::Listed(list) => number_at(list, at),
            Corners::Numbered(elements) => elements.next_number(at, passed),
            Corners::Rising(count) => {
                let _vertices = *count;
                at as u32
            }
        }
    }
}

// Number `at` of a list.
fn number_at(list: &[u32], at: usize) -> u32
    requires { at < length list.now }
    ensures { result ≡ get_or list.now at 0 }
{
    list[at]
}
