// Edits of an object and a list in place.
ghost use Rattle.std.specs.Prelude.{◌≡◌, ◌↔◌, ◌<◌, ◌∷◌, ◌++◌, [], length, map, is_some, IsTrue, OnOk, OnErr, MatchOption, false};
ghost use Rattle.gp_tree.specs.Plain.{plain, plain_member, plain_members, plain_trees, members_of, trees_of};
ghost use Rattle.gp_tree.specs.Find.{IsObject, IsList, find_member, value_of, member_list, item_list};
ghost use Rattle.gp_tree.specs.Look.{item, items_length};
ghost use Rattle.gp_tree.specs.TreeEdits.{with_member, without, set_first, remove_first, and_items, without_item, remove_nth};

use crate::find::place_of;
use crate::lexeme::Lexeme;
use crate::tree::{Member, Members, Tree, Trees};
use gp_host::NoMemory;
use std::alloc::Global;

impl Tree {
    ghost use Rattle.std.specs.Borrow.{LendsIf, sem};
    ghost use Rattle.gp_tree.specs.contracts.tree.Tree.{the_row};
    ghost use Rattle.gp_tree.specs.contracts.tree.Members.{the_row as members_row};
    ghost use Rattle.gp_tree.specs.contracts.tree.Trees.{the_row as trees_row};
    ghost use Rattle.gp_tree.specs.declared.tree.Tree.{Members as an_object, List as a_list};

    fn object_mut(&mut self) -> Option<&mut Members>
        ensures* writes_back { sem 𝓛 (LendsIf the_row members_row self.entry result an_object self.old) }
        ensures value { MatchOption result (¬ IsObject (plain self.old)) (λ m. self.old ≡ an_object m.now) }
    {
        if let Tree::Members(members) = self {
            Some(members)
        } else {
            None
        }
    }

    fn list_mut(&mut self) -> Option<&mut Trees>
        ensures* writes_back { sem 𝓛 (LendsIf the_row trees_row self.entry result a_list self.old) }
        ensures value { MatchOption result (¬ IsList (plain self.old)) (λ v. self.old ≡ a_list v.now) }
    {
        if let Tree::List(items) = self {
            Some(items)
        } else {
            None
        }
    }

    /// Gives this value to the first member with this name, which keeps its place and the spelling
    /// of its key. A new name goes last, spelled as it is: it is printable ASCII without `"` and `\`.
    /// A tree that is no object stays as it is. After `Err` the tree is as before; the value is
    /// gone.
    pub fn set(&mut self, alloc: Global, key: &str, value: Tree) -> Result<(), NoMemory>
        ensures set { OnOk result (plain self.new ≡ with_member key.now (plain value) (plain self.old)) }
        ensures stays { OnErr result (plain self.new ≡ plain self.old) }
    {
        match self.object_mut() {
            Some(members) => members.set(alloc, key, value),
            None => Ok(()),
        }
    }

    /// Takes out the first member with this ASCII name; the others keep their order. False where
    /// there is none, as in a tree that is no object, which then stays as it is.
    pub fn remove(&mut self, key: &str) -> bool
        ensures found { result ≡ is_some (find_member key.now (plain self.old)) }
        ensures removed { plain self.new ≡ without key.now (plain self.old) }
        ensures stays { result ≡ false → plain self.new ≡ plain self.old }
    {
        match self.object_mut() {
            Some(members) => members.remove(key),
            None => false,
        }
    }

    /// Puts an item at the end of a list. A tree that is no list stays as it is. After `Err` the
    /// tree is as before; the value is gone.
    pub fn append(&mut self, value: Tree) -> Result<(), NoMemory>
        ensures appended { OnOk result (plain self.new ≡ and_items (plain value ∷ []) (plain self.old)) }
        ensures stays { OnErr result (plain self.new ≡ plain self.old) }
    {
        match self.list_mut() {
            Some(items) => items.append(value),
            None => Ok(()),
        }
    }

    /// Takes the item at this place out of a list; the later ones move up. False where there is
    /// none, as in a tree that is no list, which then stays as it is.
    pub fn remove_item(&mut self, at: usize) -> bool
        ensures found { result ≡ is_some (item (plain self.old) at) }
        ensures removed { plain self.new ≡ without_item at (plain self.old) }
        ensures stays { result ≡ false → plain self.new ≡ plain self.old }
    {
        match self.list_mut() {
            Some(items) => items.remove(at),
            None => false,
        }
    }
}

impl Members {
    fn set(&mut self, alloc: Global, key: &str, value: Tree) -> Result<(), NoMemory>
        ensures set { OnOk result (plain_members self.new
            ≡ members_of (set_first key.now (plain value) (member_list (plain_members self.old)))) }
        ensures stays { OnErr result (plain_members self.new ≡ plain_members self.old) }
    {
        set_in(alloc, &mut self.items, key, value)
    }

    fn remove(&mut self, key: &str) -> bool
        ensures found { result ≡ is_some (value_of key.now (member_list (plain_members self.old))) }
        ensures removed { plain_members self.new
            ≡ members_of (remove_first key.now (member_list (plain_members self.old))) }
        ensures stays { result ≡ false → plain_members self.new ≡ plain_members self.old }
    {
        remove_in(&mut self.items, key)
    }
}

impl Trees {
    fn append(&mut self, value: Tree) -> Result<(), NoMemory>
        ensures appended { OnOk result (plain_trees self.new
            ≡ trees_of (item_list (plain_trees self.old) ++ plain value ∷ [])) }
        ensures stays { OnErr result (plain_trees self.new ≡ plain_trees self.old) }
    {
        self.items.push(value)?;
        Ok(())
    }

    fn remove(&mut self, at: usize) -> bool
        ensures found { IsTrue result ↔ (at < items_length (plain_trees self.old)) }
        ensures removed { plain_trees self.new
            ≡ trees_of (remove_nth at (item_list (plain_trees self.old))) }
        ensures stays { result ≡ false → plain_trees self.new ≡ plain_trees self.old }
    {
        remove_at(&mut self.items, at)
    }
}

fn set_in(alloc: Global, members: &mut Vec<Member>, key: &str, value: Tree) -> Result<(), NoMemory>
    ensures set { OnOk result (map plain_member members.new.items
        ≡ set_first key.now (plain value) (map plain_member members.old.items)) }
    ensures stays { OnErr result (members.new.items ≡ members.old.items) }
{
    if let Some(at) = place_of(members, key) {
        members[at].value = value;
        return Ok(());
    }
    let key = Lexeme::from_slice(alloc, key.as_bytes())?;
    members.push(Member { key, value })?;
    Ok(())
}

fn remove_in(members: &mut Vec<Member>, key: &str) -> bool
    ensures found { result ≡ is_some (value_of key.now (map plain_member members.old.items)) }
    ensures removed { map plain_member members.new.items
        ≡ remove_first key.now (map plain_member members.old.items) }
    ensures stays { result ≡ false → members.new.items ≡ members.old.items }
{
    let Some(at) = place_of(members, key) else {
        return false;
    };
    members.remove(at);
    true
}

fn remove_at(items: &mut Vec<Tree>, at: usize) -> bool
    ensures found { IsTrue result ↔ (at < length items.old.items) }
    ensures removed { map plain items.new.items ≡ remove_nth at (map plain items.old.items) }
    ensures stays { result ≡ false → items.new.items ≡ items.old.items }
{
    if at >= items.len() {
        return false;
    }
    items.remove(at);
    true
}
