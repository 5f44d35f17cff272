// Whether the keys of each object differ.
ghost use Rattle.std.specs.Prelude.{◌≡◌, ◌<◌, ◌≤◌, ◌↔◌, map, length, IsTrue, IsSorted, IsOk, IfOk};
ghost use Rattle.std.specs.Ordering.{nat_cmp};
ghost use Rattle.std.specs.Cmp.Lexicographic.{slice_cmp};
ghost use Rattle.gp_tree.specs.Plain.{plain, plain_items, plain_entries};
ghost use Rattle.gp_tree.specs.Key.{units};
ghost use Rattle.gp_tree.specs.EqualKeys.{ArePlain, IsNewKey, sum_from, DoRise};
ghost use Rattle.gp_tree.specs.Sound.{keys, AreDistinct, HasDistinctKeys, ItemsHaveDistinctKeys, MembersHaveDistinctKeys};

use crate::key::{is_plain, same_key};
use crate::tree::{Member, Tree};
use crate::units::Units;
use gp_host::NoMemory;
use std::alloc::{AllocError, Global};

// How many keys are compared two by two: for so many that is quicker than to sort them.
const FEW: usize = 8;

impl Tree {
    /// Whether no object, the tree itself or any part of it, has two keys that stand for the same
    /// 16-bit units (RFC 8259, sections 4 and 8.3). An object takes no more time than sorting its
    /// keys, and memory where it has more than eight.
    pub fn has_distinct_keys(&self, alloc: Global) -> Result<bool, NoMemory>
        ensures { IfOk result (λ b. IsTrue b ↔ HasDistinctKeys (plain self.now)) }
    {
        Ok(tree_has_distinct_keys(alloc, self)?)
    }
}

#[cycle(distinct)]
fn tree_has_distinct_keys(alloc: Global, tree: &Tree) -> Result<bool, AllocError>
    ensures { IfOk result (λ b. IsTrue b ↔ HasDistinctKeys (plain tree.now)) }
{
    match tree {
        Tree::List(items) => items_have_distinct_keys(alloc, &items.items),
        Tree::Members(members) => {
            if !are_keys_distinct(alloc, &members.items)? {
                return Ok(false);
            }
            members_have_distinct_keys(alloc, &members.items)
        }
        _ => Ok(true),
    }
}

#[cycle(distinct)]
fn items_have_distinct_keys(alloc: Global, items: &[Tree]) -> Result<bool, AllocError>
    ensures { IfOk result (λ b. IsTrue b ↔ ItemsHaveDistinctKeys (plain_items items.now)) }
{
    for item in items {
        if !tree_has_distinct_keys(alloc, item)? {
            return Ok(false);
        }
    }
    Ok(true)
}

#[cycle(distinct)]
fn members_have_distinct_keys(alloc: Global, members: &[Member]) -> Result<bool, AllocError>
    ensures { IfOk result (λ b. IsTrue b ↔ MembersHaveDistinctKeys (plain_entries members.now)) }
{
    for member in members {
        if !tree_has_distinct_keys(alloc, &member.value)? {
            return Ok(false);
        }
    }
    Ok(true)
}

// A few keys are compared two by two; many are sorted, so that no object takes quadratic time.
fn are_keys_distinct(alloc: Global, members: &[Member]) -> Result<bool, AllocError>
    ensures distinct { IfOk result (λ b. IsTrue b
        ↔ AreDistinct (map units (keys (plain_entries members.now)))) }
    ensures few { length members.now ≤ 8 → IsOk result }
{
    if members.len() <= FEW {
        return Ok(are_few_keys_distinct(members));
    }
    if are_plain(members) {
        return are_plain_keys_distinct(alloc, members);
    }
    let mut decoded = Vec::new(alloc);
    for member in members {
        decoded.push(decode(alloc, member.key.as_slice())?)?;
    }
    decoded.sort_unstable();
    Ok(neighbours_differ(&decoded))
}

// ASCII without an escape stands for itself. A number is made of each key, since numbers are sorted
// sooner than keys, and the keys are sorted where two numbers are equal.
fn are_plain_keys_distinct(alloc: Global, members: &[Member]) -> Result<bool, AllocError>
    requires { ArePlain (plain_entries members.now) }
    ensures { IfOk result (λ b. IsTrue b
        ↔ AreDistinct (map units (keys (plain_entries members.now)))) }
{
    if are_sums_distinct(alloc, members)? {
        return Ok(true);
    }
    are_sorted_keys_distinct(alloc, members)
}

fn are_sorted_keys_distinct(alloc: Global, members: &[Member]) -> Result<bool, AllocError>
    requires { ArePlain (plain_entries members.now) }
    ensures { IfOk result (λ b. IsTrue b
        ↔ AreDistinct (map units (keys (plain_entries members.now)))) }
{
    let mut keys = Vec::new(alloc);
    for member in members {
        keys.push(member.key.as_slice())?;
    }
    keys.sort_unstable();
    Ok(neighbour_strings_differ(&keys))
}

fn are_few_keys_distinct(members: &[Member]) -> bool
    ensures { IsTrue result ↔ AreDistinct (map units (keys (plain_entries members.now))) }
{
    for at in 1..members.len() {
        if !is_new_key(members, at) {
            return false;
        }
    }
    true
}

// Whether the key at this place differs from each before it.
fn is_new_key(members: &[Member], at: usize) -> bool
    requires { at < length members.now }
    ensures { IsTrue result ↔ IsNewKey members.now at }
{
    for before in 0..at {
        if same_key(&members[before].key, &members[at].key) {
            return false;
        }
    }
    true
}

// Whether the numbers that are made of the keys differ, and so do the keys.
fn are_sums_distinct(alloc: Global, members: &[Member]) -> Result<bool, AllocError>
    requires { ArePlain (plain_entries members.now) }
    ensures { IfOk result (λ b. IsTrue b
        → AreDistinct (map units (keys (plain_entries members.now)))) }
{
    let mut sums = Vec::with_capacity(alloc, members.len())?;
    for member in members {
        sums.push(sum_of(member.key.as_slice()))?;
    }
    sums.sort_unstable();
    Ok(do_rise(&sums))
}

// A number made of a string (the hash FNV-1a of 64 bits, with another start).
fn sum_of(string: &[u8]) -> u64
    ensures { result ≡ sum_from 0 string.now }
{
    let mut sum = 0;
    'bytes: for i in 0..string.len() {
        sum = (sum ^ string[i] as u64).wrapping_mul(0x100_0000_01b3);
    }
    sum
}

fn do_rise(numbers: &[u64]) -> bool
    ensures { IsTrue result → DoRise (length numbers.now) numbers.now }
{
    for at in 1..numbers.len() {
        if numbers[at - 1] >= numbers[at] {
            return false;
        }
    }
    true
}

fn are_plain(members: &[Member]) -> bool
    ensures { IsTrue result → ArePlain (plain_entries members.now) }
{
    for member in members {
        if !is_plain(member.key.as_slice()) {
            return false;
        }
    }
    true
}

fn neighbour_strings_differ(keys: &[&[u8]]) -> bool
    requires { IsSorted (λ a b. slice_cmp nat_cmp a.now b.now) keys.now }
    ensures { IsTrue result ↔ AreDistinct (map (λ k. k.now) keys.now) }
{
    for at in 1..keys.len() {
        if keys[at - 1] == keys[at] {
            return false;
        }
    }
    true
}

fn neighbours_differ(keys: &[Vec<u32>]) -> bool
    requires { IsSorted (λ a b. slice_cmp nat_cmp a.items b.items) keys.now }
    ensures { IsTrue result ↔ AreDistinct (map (λ k. k.items) keys.now) }
{
    for later in 1..keys.len() {
        if keys[later - 1] == keys[later] {
            return false;
        }
    }
    true
}

// The units of a string.
fn decode(alloc: Global, string: &[u8]) -> Result<Vec<u32>, AllocError>
    ensures { IfOk result (λ v. v.items ≡ units string.now) }
{
    let mut out = Vec::new(alloc);
    let mut left = Units::new(string);
    'units: loop {
        let Some(unit) = left.next() else {
            return Ok(out);
        };
        out.push(unit)?;
    }
}
