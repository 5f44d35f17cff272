//! Rules of glTF 2.0 on buffer views and accessors: what each must be, and how large it is.
//!
//! [`read_views`] and [`read_accessors`] give the views and the accessors that fields stand for, or the first fault of
//! one; [`is_too_much`] says whether they ask for more than an asset may. `specs/Views.antt` and `specs/Accessors.antt`
//! say what is wrong with one, `specs/Checks.antt` how the first fault is found.
//!
//! - `accessing`, `storage`: accessors, and buffer views with their compressed forms.
//! - `kinds`, `sizes`: numbers and names of the standard, and the bytes of elements.
//! - `views`, `packed`; `accessors`; `load`: the rules.
//! - `fault`: why an asset is refused.
#![tactic(auto)]

mod accessing;
mod accessors;
mod fault;
mod kinds;
mod load;
mod packed;
mod sizes;
mod storage;
mod views;

pub use accessing::{Accessor, Component, Shape, Sparse};
pub use accessors::read_accessors;
pub use fault::{AssetFault, AssetRefusal};
pub use load::is_too_much;
pub use sizes::element_size;
pub use storage::{Packed, StreamMode, View};
pub use views::read_views;
