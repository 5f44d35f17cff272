// Items and values lent for writing.
//
// The proof of a caller sees a write come back where what is lent has another type than its lender.
// So a caller whose proof is generated lends the items or the members first, and then one of them.
ghost use Rattle.std.specs.Prelude.{◌≡◌, ◌<◌, Some, IsSome, map, length};
ghost use Rattle.gp_tree.specs.Plain.{plain, plain_member, plain_trees, plain_members, list, members, trees_of, members_of};
ghost use Rattle.gp_tree.specs.declared.tree.Tree.{Tree};
ghost use Rattle.gp_tree.specs.declared.tree.Trees.{Trees};
ghost use Rattle.gp_tree.specs.declared.tree.Members.{Members};
ghost use Rattle.gp_tree.specs.Look.{item, nth_item};
ghost use Rattle.gp_tree.specs.Find.{IsList, IsObject, item_list, member_list, find_member, value_of};
ghost use Rattle.gp_tree.specs.First.{IsFirst};
ghost use Rattle.gp_tree.specs.TreeEdits.{at_item, at_member, change_nth, change_first};
ghost use Rattle.gp_tree.specs.Lending.{put_item, put_value, put_item_in_tree, put_value_in_tree};

use crate::find::place_of;
use crate::tree::{Member, Members, Tree, Trees};

impl Tree {
    ghost use Rattle.std.specs.Borrow.{Lends, sem};
    ghost use Rattle.gp_tree.specs.contracts.tree.Tree.{the_row};
    ghost use Rattle.gp_tree.specs.contracts.tree.Trees.{the_row as trees_row};
    ghost use Rattle.gp_tree.specs.contracts.tree.Members.{the_row as members_row};
    ghost use Rattle.gp_tree.specs.declared.tree.Tree.{List as a_list, Members as an_object};

    /// Lends the item at this place of a list that has one there. What is written there stands in
    /// that place afterwards, and all else stays.
    pub fn item_mut(&mut self, at: usize) -> &mut Tree
        requires { IsSome (item (plain self.old) at) }
        ensures* writes_back { sem 𝓛 (Lends the_row the_row self.entry result (put_item_in_tree self.old at)) }
        ensures value { item (plain self.old) at ≡ Some (plain result.now) }
        ensures puts { (w : Tree) → plain (put_item_in_tree self.old at w)
            ≡ at_item at (λ _. plain w) (plain self.old) }
    {
        self.items_mut().item_mut(at)
    }

    /// Lends the value of the first member with this ASCII name, in an object that has one. What is
    /// written there stands in that place afterwards, and all else stays.
    pub fn find_mut(&mut self, key: &str) -> &mut Tree
        requires { IsSome (find_member key.now (plain self.old)) }
        ensures* writes_back { sem 𝓛 (Lends the_row the_row self.entry result (put_value_in_tree self.old key.now)) }
        ensures value { find_member key.now (plain self.old) ≡ Some (plain result.now) }
        ensures puts { (w : Tree) → plain (put_value_in_tree self.old key.now w)
            ≡ at_member key.now (λ _. plain w) (plain self.old) }
    {
        self.members_mut().find_mut(key)
    }

    /// Lends the items of a list.
    pub fn items_mut(&mut self) -> &mut Trees
        requires { IsList (plain self.old) }
        ensures* writes_back { sem 𝓛 (Lends the_row trees_row self.entry result a_list) }
        ensures value { self.old ≡ a_list result.now }
        ensures lists { (w : Trees) → plain (a_list w) ≡ list (plain_trees w) }
    {
        match self {
            Tree::List(items) => items,
            _ => unreachable!(),
        }
    }

    /// Lends the members of an object.
    pub fn members_mut(&mut self) -> &mut Members
        requires { IsObject (plain self.old) }
        ensures* writes_back { sem 𝓛 (Lends the_row members_row self.entry result an_object) }
        ensures value { self.old ≡ an_object result.now }
        ensures objects { (w : Members) → plain (an_object w) ≡ members (plain_members w) }
    {
        match self {
            Tree::Members(members) => members,
            _ => unreachable!(),
        }
    }
}

impl Trees {
    ghost use Rattle.std.specs.Borrow.{Lends, sem};
    ghost use Rattle.gp_tree.specs.contracts.tree.Tree.{the_row as tree_row};
    ghost use Rattle.gp_tree.specs.contracts.tree.Trees.{the_row};

    /// Lends the item at this place.
    pub fn item_mut(&mut self, at: usize) -> &mut Tree
        requires { IsSome (nth_item (plain_trees self.old) at) }
        ensures* writes_back { sem 𝓛 (Lends the_row tree_row self.entry result (put_item self.old at)) }
        ensures value { nth_item (plain_trees self.old) at ≡ Some (plain result.now) }
        ensures puts { (w : Tree) → plain_trees (put_item self.old at w)
            ≡ trees_of (change_nth at (λ _. plain w) (item_list (plain_trees self.old))) }
    {
        &mut self.items[at]
    }
}

impl Members {
    ghost use Rattle.std.specs.Borrow.{Lends, sem};
    ghost use Rattle.gp_tree.specs.contracts.tree.Tree.{the_row as tree_row};
    ghost use Rattle.gp_tree.specs.contracts.tree.Members.{the_row};

    /// Lends the value of the first member with this ASCII name.
    pub fn find_mut(&mut self, key: &str) -> &mut Tree
        requires { IsSome (value_of key.now (member_list (plain_members self.old))) }
        ensures* writes_back { sem 𝓛 (Lends the_row tree_row self.entry result (put_value self.old key.now)) }
        ensures value { value_of key.now (member_list (plain_members self.old)) ≡ Some (plain result.now) }
        ensures puts { (w : Tree) → plain_members (put_value self.old key.now w)
            ≡ members_of (change_first key.now (λ _. plain w) (member_list (plain_members self.old))) }
    {
        let at = known_place(&self.items, key);
        let member = &mut self.items[at];
        &mut member.value
    }
}

// Where the first member with this name stands.
fn known_place(members: &[Member], key: &str) -> usize
    requires { IsSome (value_of key.now (map plain_member members.now)) }
    ensures within { result < length members.now }
    ensures first { IsFirst key.now (map plain_member members.now) result }
{
    match place_of(members, key) {
        Some(at) => at,
        None => unreachable!(),
    }
}
