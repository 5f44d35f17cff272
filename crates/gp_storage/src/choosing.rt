// Which stream a buffer view may be stored as.
ghost use Rattle.std.specs.Prelude.{◌≡◌, ◌⊎◌, ◌^◌, nat_lt, IfSome, true};
ghost use Rattle.std.specs.List.{list_all};
ghost use Rattle.gp_rules.specs.Views.{is_stride, is_stride_in};
ghost use Rattle.gp_storage.specs.declared.coding.Coding.{Coding as CodingFields};
ghost use Rattle.gp_storage.specs.Coding.{numbers_in, is_sequence, is_attributes};
ghost use Rattle.gp_storage.specs.Shared.{sequence_by, attributes_by, coding_with};

use crate::coding::Coding;
use crate::listing::number;
use crate::shared::Shared;
use gp_rules::{StreamMode, View};

// Every number of an index sequence is below this one.
const NUMBER_END: u32 = 1 << 30;

/// How a view with these bytes may be stored, given what its readers have in common: as an index sequence, else as
/// attributes; not where an image refers to it.
#[tactic(auto, unfolding(crate::specs::Shared::coding_with))]
pub(crate) fn choose_coding(
    view: &View,
    bytes: &[u8],
    has_image: bool,
    shared: &Shared,
) -> Option<Coding>
    ensures value { result ≡ coding_with has_image shared.now view.now bytes.now }
    ensures shape { IfSome result (λ (c : CodingFields). is_stride_in c.mode c.stride ≡ true) }
{
    if has_image {
        return None;
    }
    if let Some(stride) = sequence_width(view, bytes, shared) {
        return Some(Coding {
            mode: StreamMode::Indices,
            stride,
        });
    }
    match attribute_stride(view, shared) {
        Some(stride) => Some(Coding {
            mode: StreamMode::Attributes,
            stride,
        }),
        None => None,
    }
}

// The size of the numbers, where they may be an index sequence.
fn sequence_width(view: &View, bytes: &[u8], shared: &Shared) -> Option<u32>
    ensures { result ≡ sequence_by shared.now view.now bytes.now }
{
    match shared.components.one() {
        Some(width) if is_sequence(view, bytes, shared.index_lists, width) => Some(width),
        _ => None,
    }
}

fn is_sequence(view: &View, bytes: &[u8], index_lists: bool, width: u32) -> bool
    ensures { result ≡ is_sequence index_lists view.now bytes.now width }
{
    index_lists
        && (width == 2 || width == 4)
        && view.stride.is_none()
        && view.length % width == 0
        && are_small(bytes, width as usize)
}

// Whether all numbers of so many bytes may be in an index sequence.
fn are_small(bytes: &[u8], width: usize) -> bool
    requires { (width ≡ 2) ⊎ (width ≡ 4) }
    ensures { result ≡ list_all (λ n. nat_lt n (2 ^ 30)) (numbers_in width bytes.now) }
{
    'numbers: for at in 0..bytes.len() / width {
        if number(&bytes[at * width..at * width + width]) >= NUMBER_END {
            return false;
        }
    }
    true
}

// The size of the elements, where the view may be stored as attributes: its own stride, else the one size of all.
fn attribute_stride(view: &View, shared: &Shared) -> Option<u32>
    ensures { result ≡ attributes_by shared.now view.now }
{
    match view.stride.or(shared.elements.one()) {
        Some(stride) if is_attributes(view, stride) => Some(stride),
        _ => None,
    }
}

fn is_attributes(view: &View, stride: u32) -> bool
    ensures { result ≡ is_attributes view.now stride }
{
    is_stride(stride) && view.length % stride == 0
}

// Whether elements of this size may be in a stream of attributes.
fn is_stride(stride: u32) -> bool
    ensures { result ≡ is_stride 256 stride }
{
    stride % 4 == 0 && 4 <= stride && stride <= 256
}
