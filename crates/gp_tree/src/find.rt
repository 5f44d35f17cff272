// Finding a member of an object by its name.
ghost use Rattle.std.specs.Prelude.{◌≡◌, ◌<◌, length, map, MatchOption, option_map};
ghost use Rattle.gp_tree.specs.Plain.{plain, plain_member};
ghost use Rattle.gp_tree.specs.Find.{find_member, value_of};
ghost use Rattle.gp_tree.specs.First.{HasNo, IsFirst};

use crate::key::key_is;
use crate::tree::{Member, Tree};

impl Tree {
    /// The value of the first member with this ASCII name, however its key is spelled. `None` where
    /// there is none, and of a tree that is no object. One pass over the members, and no memory.
    pub fn find(&self, key: &str) -> Option<&Tree>
        ensures { option_map (λ t. plain t.now) result ≡ find_member key.now (plain self.now) }
    {
        match self {
            Tree::Members(members) => value_in(members.as_slice(), key),
            _ => None,
        }
    }
}

fn value_in<'a>(members: &'a [Member], key: &str) -> Option<&'a Tree>
    ensures { option_map (λ t. plain t.now) result
        ≡ value_of key.now (map plain_member members.now) }
{
    let at = place_of(members, key)?;
    Some(&members[at].value)
}

// The place of the first member with this name.
pub(crate) fn place_of(members: &[Member], key: &str) -> Option<usize>
    ensures { MatchOption result (HasNo key.now (map plain_member members.now))
        (λ i. (i < length members.now) × IsFirst key.now (map plain_member members.now) i) }
{
    'members: for i in 0..members.len() {
        if key_is(&members[i].key, key) {
            return Some(i);
        }
    }
    None
}
