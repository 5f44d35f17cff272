// The elements of an accessor, over the bytes of its buffer view.
ghost use Rattle.std.specs.Prelude.{◌≡◌, ◌<◌, ◌≤◌, length, slice_get, Some, IfSome, option_map};
ghost use Rattle.gp_elements.specs.Elements.{number_of, IsNumber, last_end, base_elements, zero_elements};

use crate::apart::Apart;
use crate::numbers::{number, place_of};
use crate::slices::Slices;
use gp_rules::Accessor;
use std::marker::Model;

/// The list of the elements of an accessor, each as its bytes (glTF 2.0, section 3.6.2). A clause sees that list.
#[derive(Drop)]
pub struct Elements<'a> {
    // Those of the buffer view, or zeros.
    pub(crate) base: Slices<'a>,
    // Those that `sparse` gives, which stand in place of them.
    pub(crate) apart: Option<Apart<'a>>,
}

impl<'a> Model for Elements<'a> {
    ghost use Rattle.std.specs.Prelude.{ℕ, List, IfSome};

    ghost Value = { List (List ℕ) };

    ghost use Rattle.gp_elements.specs.Shown.{listed, Fits};

    ghost view = { λ e. listed e.base e.apart };

    ghost invariant = { λ e. IfSome e.apart Fits };
}

impl<'a> Elements<'a> {
    /// Those in the bytes of the accessor's buffer view, which has room for them all, without regard to `sparse`. `stride` is the
    /// view's, in bytes from one element to the next; without one they stand without gaps.
    pub fn over(bytes: &'a [u8], accessor: &Accessor, stride: Option<u32>) -> Elements<'a>
        requires { 0 < accessor.now.count → last_end accessor.now stride ≤ length bytes.now }
        ensures { result ≡ base_elements bytes.now accessor.now stride }
    {
        Elements {
            base: Slices::over(bytes, accessor, stride),
            apart: None,
        }
    }

    /// Those of an accessor without a buffer view, without regard to `sparse`: all zeros.
    pub fn zeros(accessor: &Accessor) -> Elements<'a>
        ensures { result ≡ zero_elements accessor.now }
    {
        Elements {
            base: Slices::zeros(accessor),
            apart: None,
        }
    }

    /// How many there are.
    pub fn len(&self) -> usize
        ensures { result ≡ length self.now }
    {
        self.base.len()
    }

    /// The bytes of element `at`. Among the indices of a `sparse` it is sought by halves; [`Elements::at_next`] spares that.
    pub fn at(&self, at: usize) -> &'a [u8]
        requires { at < length self.now }
        ensures { slice_get self.now at ≡ Some result.now }
    {
        self.at_next(at, &mut 0)
    }

    /// The bytes of element `at`, for going through all elements in order: `passed` says how many indices of a `sparse` are below
    /// `at`, 0 before the first element, and then how many are below the next one. Where it is right, the element takes a
    /// few looks, however many indices there are; with any other value the same element is sought by halves.
    pub fn at_next(&self, at: usize, passed: &mut usize) -> &'a [u8]
        requires { at < length self.now }
        ensures { slice_get self.now at ≡ Some result.now }
    {
        let Some(apart) = &self.apart else {
            return self.base.at(at);
        };
        match place_of(&apart.indices, at, passed) {
            Some(place) => apart.values.at(place),
            None => self.base.at(at),
        }
    }

    /// Element `at` as a number, the lowest byte first. It is a scalar of 1, 2 or 4 bytes (`U8`, `U16` or `U32`).
    pub fn number(&self, at: usize) -> u32
        requires within { at < length self.now }
        requires scalar { IfSome (slice_get self.now at) IsNumber }
        ensures { option_map number_of (slice_get self.now at) ≡ Some result }
    {
        self.next_number(at, &mut 0)
    }

    /// Element `at` as a number, as [`Elements::number`] gives it, and at the cost of [`Elements::at_next`].
    pub fn next_number(&self, at: usize, passed: &mut usize) -> u32
        requires within { at < length self.now }
        requires scalar { IfSome (slice_get self.now at) IsNumber }
        ensures { option_map number_of (slice_get self.now at) ≡ Some result }
    {
        number(self.at_next(at, passed))
    }
}
