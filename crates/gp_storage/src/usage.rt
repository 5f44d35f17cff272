// What accessors are used for.
ghost use Rattle.std.specs.Prelude.{◌≡◌, IfOk, map};
ghost use Rattle.std.specs.List.{range_with_len};
ghost use Rattle.gp_storage.specs.declared.usage.Usage.TheVariants.{Unused};
ghost use Rattle.gp_storage.specs.Shared.{usage_in, with_use, is_list};

use gp_asset::{AccessorUse, Role};
use gp_host::NoMemory;
use std::alloc::Global;

/// What an accessor is used for.
#[derive(Clone, Copy)]
pub(crate) enum Usage {
    /// Nothing.
    Unused,
    /// The indices of primitives, and nothing else.
    IndexList,
    /// Something else.
    Other,
}

impl Usage {
    // With one use more.
    fn with(self, role: Role) -> Usage
        ensures { result ≡ with_use self role }
    {
        match self {
            Usage::Unused | Usage::IndexList => first_use(role),
            Usage::Other => Usage::Other,
        }
    }

    /// Whether it is used, and as the indices of primitives alone.
    pub(crate) fn is_list(self) -> bool
        ensures { result ≡ is_list self }
    {
        match self {
            Usage::IndexList => true,
            Usage::Unused | Usage::Other => false,
        }
    }
}

// Of an accessor with one use.
fn first_use(role: Role) -> Usage
    ensures { result ≡ with_use Unused role }
{
    match role {
        Role::Indices => Usage::IndexList,
        _ => Usage::Other,
    }
}

/// What each accessor is used for, of which there are so many.
pub(crate) fn usages(
    alloc: Global,
    uses: &[AccessorUse],
    accessors: usize,
) -> Result<Vec<Usage>, NoMemory>
    ensures { IfOk result (λ v. v.items ≡ map (usage_in uses.now) (range_with_len 0 accessors)) }
{
    let mut usages = vec![in alloc; Usage::Unused; accessors]?;
    'uses: for at in 0..uses.len() {
        let accessor = uses[at].accessor as usize;
        if accessor < accessors {
            usages[accessor] = usages[accessor].with(uses[at].role);
        }
    }
    Ok(usages)
}
