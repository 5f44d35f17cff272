// Changes of what stands inside a list or an object.
ghost use Rattle.std.specs.Prelude.{◌≡◌, IsSome, OnOk, OnErr, is_some, option_and_then};
ghost use Rattle.gp_tree.specs.Plain.{plain};
ghost use Rattle.gp_tree.specs.Look.{item};
ghost use Rattle.gp_tree.specs.Find.{find_member};
ghost use Rattle.gp_tree.specs.TreeEdits.{at_item, at_member, with_member, without};

use crate::tree::Tree;
use gp_host::NoMemory;
use std::alloc::Global;

impl Tree {
    /// Puts a tree in the place of an item of a list.
    pub fn put_item(&mut self, at: usize, value: Tree)
        requires { IsSome (item (plain self.old) at) }
        ensures { plain self.new ≡ at_item at (λ _. plain value) (plain self.old) }
    {
        *self.items_mut().item_mut(at) = value;
    }

    /// Sets a member of an item of a list.
    pub fn set_in_item(
        &mut self,
        alloc: Global,
        at: usize,
        key: &str,
        value: Tree,
    ) -> Result<(), NoMemory>
        requires { IsSome (item (plain self.old) at) }
        ensures set { OnOk result (plain self.new ≡ at_item at (with_member key.now (plain value)) (plain self.old)) }
        ensures stays { OnErr result (plain self.new ≡ plain self.old) }
    {
        self.items_mut().item_mut(at).set(alloc, key, value)
    }

    /// Sets a member of the value of a member.
    pub fn set_in_value(
        &mut self,
        alloc: Global,
        name: &str,
        key: &str,
        value: Tree,
    ) -> Result<(), NoMemory>
        requires { IsSome (find_member name.now (plain self.old)) }
        ensures set { OnOk result (plain self.new ≡ at_member name.now (with_member key.now (plain value)) (plain self.old)) }
        ensures stays { OnErr result (plain self.new ≡ plain self.old) }
    {
        self.members_mut().find_mut(name).set(alloc, key, value)
    }
}

impl Tree {
    /// Sets a member of an item of the list that a member holds.
    pub fn set_in_item_of(
        &mut self,
        alloc: Global,
        name: &str,
        at: usize,
        key: &str,
        value: Tree,
    ) -> Result<(), NoMemory>
        requires { IsSome (option_and_then (λ t. item t at) (find_member name.now (plain self.old))) }
        ensures set { OnOk result (plain self.new ≡ at_member name.now (at_item at (with_member key.now (plain value))) (plain self.old)) }
        ensures stays { OnErr result (plain self.new ≡ plain self.old) }
    {
        self.members_mut()
            .find_mut(name)
            .set_in_item(alloc, at, key, value)
    }

    /// Removes a member of the value that a member of an item holds. False where there is none.
    pub fn remove_in_value_of(&mut self, at: usize, name: &str, key: &str) -> bool
        requires { IsSome (option_and_then (find_member name.now) (item (plain self.old) at)) }
        ensures found { result ≡ is_some (option_and_then (find_member key.now)
            (option_and_then (find_member name.now) (item (plain self.old) at))) }
        ensures removed { plain self.new ≡ at_item at (at_member name.now (without key.now)) (plain self.old) }
    {
        self.item_mut(at).find_mut(name).remove(key)
    }
}
