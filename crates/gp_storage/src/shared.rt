// What the readers of a buffer view have in common.
ghost use Rattle.std.specs.Prelude.{◌≡◌, List, []};
ghost use Rattle.gp_asset.specs.declared.usage.AccessorUse.{AccessorUse};
ghost use Rattle.gp_storage.specs.Shared.{with_size, one_of, shared_by, with_reader};

/// What sizes have in common.
use gp_rules::{Accessor, element_size};

#[derive(Clone, Copy)]
pub(crate) enum Common {
    /// There is none.
    Nothing,
    /// Each is this one.
    Same(u32),
    /// They differ.
    Different,
}

impl Common {
    // With one size more.
    fn with(self, size: u32) -> Common
        ensures { result ≡ with_size self size }
    {
        match self {
            Common::Nothing => Common::Same(size),
            Common::Same(one) if size == one => self,
            Common::Same(_) | Common::Different => Common::Different,
        }
    }

    /// The size that all have, where there is one.
    pub(crate) fn one(self) -> Option<u32>
        ensures { result ≡ one_of self }
    {
        match self {
            Common::Same(one) => Some(one),
            Common::Nothing | Common::Different => None,
        }
    }
}

/// What accessors have in common.
#[derive(Clone, Copy)]
pub(crate) struct Shared {
    /// The sizes of their components.
    pub(crate) components: Common,
    /// The sizes of their elements.
    pub(crate) elements: Common,
    /// Whether all are used, and as the indices of primitives alone.
    pub(crate) index_lists: bool,
}

impl Shared {
    /// Of no accessor.
    #[tactic(auto, unfolding(crate::specs::Shared::shared_by))]
    pub(crate) fn none() -> Shared
        ensures { (uses : List AccessorUse) → result ≡ shared_by uses [] }
    {
        Shared {
            components: Common::Nothing,
            elements: Common::Nothing,
            index_lists: true,
        }
    }

    /// With one accessor more.
    pub(crate) fn with(self, accessor: &Accessor, is_list: bool) -> Shared
        ensures { result ≡ with_reader self accessor.now is_list }
    {
        let size = element_size(accessor.component, accessor.shape);
        Shared {
            components: self.components.with(accessor.component.size()),
            elements: self.elements.with(size),
            index_lists: self.index_lists && is_list,
        }
    }
}
