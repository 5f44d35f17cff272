// What the views and accessors of an asset ask for together.
ghost use Rattle.std.specs.Prelude.{◌≡◌, ◌≤◌, ◌^◌, ◌+◌, sum_by};
ghost use Rattle.gp_rules.specs.Accessors.{padded_load, is_too_much};
ghost use Rattle.gp_rules.specs.declared.storage.View.{View as Meant};
ghost use Rattle.gp_rules.specs.Loads.{within};

use crate::accessing::Accessor;
use crate::sizes::{element_size, padded};
use crate::storage::View;

// The most bytes that decoding and gathering may take.
const MAX_LOAD: u64 = 1 << 31;

/// Whether the views and the padded elements of all accessors have more than 2^31 bytes.
#[tactic(auto, unfolding(crate::specs::Accessors::load))]
pub fn is_too_much(views: &[View], accessors: &[Accessor]) -> bool
    ensures { result ≡ is_too_much views.now accessors.now }
{
    match views_load(views) {
        None => true,
        Some(load) => accessors_load(accessors, load).is_none(),
    }
}

// The bytes of the views, or `None` where they are more than the most.
fn views_load(views: &[View]) -> Option<u64>
    ensures { result ≡ within (sum_by (λ (v : Meant). v.length) views.now) }
{
    let mut load = 0u64;
    'views: for view in views {
        load += view.length as u64;
        if load > MAX_LOAD {
            return None;
        }
    }
    Some(load)
}

// The same with those of the elements.
fn accessors_load(accessors: &[Accessor], views: u64) -> Option<u64>
    requires { views ≤ 2 ^ 31 }
    ensures { result ≡ within (views + sum_by padded_load accessors.now) }
{
    let mut load = views;
    'accessors: for accessor in accessors {
        load += padded_load(accessor);
        if load > MAX_LOAD {
            return None;
        }
    }
    Some(load)
}

// The bytes of the padded elements of an accessor.
fn padded_load(accessor: &Accessor) -> u64
    ensures load { result ≡ padded_load accessor.now }
    ensures bound { result ≤ 2 ^ 38 }
{
    let size = element_size(accessor.component, accessor.shape);
    accessor.count as u64 * padded(size) as u64
}
