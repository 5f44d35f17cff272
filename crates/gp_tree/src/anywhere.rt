// Members at any place of a tree.
ghost use Rattle.std.specs.Prelude.{◌≡◌, ◌||◌, ◌++◌, map, IfOk, OnOk};
ghost use Rattle.gp_tree.specs.Plain.{plain, plain_member, plain_items, plain_entries};
ghost use Rattle.gp_tree.specs.Find.{is_named};
ghost use Rattle.gp_tree.specs.Anywhere.{has_member, items_have_member, members_have_member};
ghost use Rattle.gp_tree.specs.Anywhere.{own_keys, keys_under, items_keys_under, members_keys_under};

use crate::key::key_is;
use crate::lexeme::Lexeme;
use crate::tree::{Member, Tree};
use gp_host::NoMemory;
use std::alloc::{AllocError, Global};

impl Tree {
    /// Whether some object, the tree itself or any part of it, has a member with this ASCII name.
    pub fn has_member(&self, name: &str) -> bool
        ensures { result ≡ has_member name.now (plain self.now) }
    {
        is_member_in(self, name)
    }

    /// The keys, as they are spelled, of each object that is the value of a member with this ASCII
    /// name, a member of the tree itself or of any part of it. Members come in order: of each one,
    /// the keys of its value, then those found inside that value. Takes time linear in the tree.
    pub fn keys_under<'a>(&'a self, alloc: Global, name: &str) -> Result<Vec<&'a Lexeme>, NoMemory>
        ensures { IfOk result (λ v. map (λ k. k.now) v.items ≡ keys_under name.now (plain self.now)) }
    {
        let mut keys = Vec::new(alloc);
        put_keys_under(&mut keys, self, name)?;
        Ok(keys)
    }
}

// Whether some object of a tree has a member with this name.
#[cycle(anywhere)]
fn is_member_in(tree: &Tree, name: &str) -> bool
    ensures { result ≡ has_member name.now (plain tree.now) }
{
    match tree {
        Tree::List(items) => is_member_of_items(&items.items, name),
        Tree::Members(members) => is_member_of_members(&members.items, name),
        _ => false,
    }
}

#[cycle(anywhere)]
fn is_member_of_items(items: &[Tree], name: &str) -> bool
    ensures { result ≡ items_have_member name.now (plain_items items.now) }
{
    for item in items {
        if is_member_in(item, name) {
            return true;
        }
    }
    false
}

#[cycle(anywhere)]
fn is_member_of_members(members: &[Member], name: &str) -> bool
    ensures { result ≡ members_have_member name.now (plain_entries members.now) }
{
    for member in members {
        if key_is(&member.key, name) || is_member_in(&member.value, name) {
            return true;
        }
    }
    false
}

// Adds the keys under members with this name.
#[cycle(keys)]
fn put_keys_under<'a>(
    keys: &mut Vec<&'a Lexeme>,
    tree: &'a Tree,
    name: &str,
) -> Result<(), AllocError>
    ensures { OnOk result (map (λ k. k.now) keys.new.items
        ≡ map (λ k. k.now) keys.old.items ++ keys_under name.now (plain tree.now)) }
{
    match tree {
        Tree::List(items) => put_keys_under_items(keys, &items.items, name),
        Tree::Members(members) => put_keys_under_members(keys, &members.items, name),
        _ => Ok(()),
    }
}

#[cycle(keys)]
fn put_keys_under_items<'a>(
    keys: &mut Vec<&'a Lexeme>,
    items: &'a [Tree],
    name: &str,
) -> Result<(), AllocError>
    ensures { OnOk result (map (λ k. k.now) keys.new.items
        ≡ map (λ k. k.now) keys.old.items ++ items_keys_under name.now (plain_items items.now)) }
{
    for item in items {
        put_keys_under(keys, item, name)?;
    }
    Ok(())
}

#[cycle(keys)]
fn put_keys_under_members<'a>(
    keys: &mut Vec<&'a Lexeme>,
    members: &'a [Member],
    name: &str,
) -> Result<(), AllocError>
    ensures { OnOk result (map (λ k. k.now) keys.new.items
        ≡ map (λ k. k.now) keys.old.items ++ members_keys_under name.now (plain_entries members.now)) }
{
    for member in members {
        put_own_keys(keys, member, name)?;
        put_keys_under(keys, &member.value, name)?;
    }
    Ok(())
}

// Adds the keys of a member's value, where the member has this name.
#[tactic(auto, using(crate::proofs::KeysUnder::own_object))]
fn put_own_keys<'a>(
    keys: &mut Vec<&'a Lexeme>,
    member: &'a Member,
    name: &str,
) -> Result<(), AllocError>
    ensures { OnOk result (map (λ k. k.now) keys.new.items
        ≡ map (λ k. k.now) keys.old.items ++ own_keys name.now member.now.key (plain member.now.value)) }
{
    match &member.value {
        Tree::Members(members) if key_is(&member.key, name) => put_keys(keys, &members.items),
        _ => Ok(()),
    }
}

fn put_keys<'a>(keys: &mut Vec<&'a Lexeme>, members: &'a [Member]) -> Result<(), AllocError>
    ensures { OnOk result (map (λ k. k.now) keys.new.items
        ≡ map (λ k. k.now) keys.old.items ++ map (λ m. m.key) members.now) }
{
    for member in members {
        keys.push(&member.key)?;
    }
    Ok(())
}
