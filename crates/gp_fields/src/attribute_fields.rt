// The members of `attributes` and of morph targets: semantics and their accessors (glTF 2.0, section 5.24).
ghost use Rattle.std.specs.Prelude.{◌≡◌, IfOk, [], codes};
ghost use Rattle.gp_tree.specs.Plain.{plain, plain_items, plain_member, plain_entries, list, members};
ghost use Rattle.gp_fields.specs.Shapes.{object_of, list_of, required, defaulted};
ghost use Rattle.gp_fields.specs.Fields.{entry_of, entries_fields};

use crate::arrays::read_all;
use crate::geometry::{Entries, Entry, Targets};
use crate::reading::as_reference;
use crate::shapes::TargetShape;
use gp_host::NoMemory;
use gp_tree::{Lexeme, Member, Tree};
use std::alloc::Global;

pub(crate) fn attributes_of(
    alloc: Global,
    object: &Tree,
    accessors: usize,
) -> Result<Option<Entries>, NoMemory>
    ensures { IfOk result (λ o. o ≡ required (plain object.now) (codes "attributes") (object_of (entries_fields accessors))) }
{
    match object.find("attributes") {
        None => Ok(None),
        Some(value) => read_entries(alloc, value, accessors),
    }
}

pub(crate) fn targets_of(
    alloc: Global,
    object: &Tree,
    accessors: usize,
) -> Result<Option<Targets>, NoMemory>
    ensures { IfOk result (λ o. o ≡ defaulted (plain object.now) (codes "targets") [] (list_of (object_of (entries_fields accessors)))) }
{
    match object.find("targets") {
        None => Ok(Some(Targets::from_vec(Vec::new(alloc)))),
        Some(Tree::List(items)) => read_targets(alloc, items.as_slice(), accessors),
        Some(_) => Ok(None),
    }
}

fn read_targets(
    alloc: Global,
    items: &[Tree],
    accessors: usize,
) -> Result<Option<Targets>, NoMemory>
    ensures { IfOk result (λ o. o ≡ list_of (object_of (entries_fields accessors)) (list (plain_items items.now))) }
{
    let targets = read_all(alloc, items, &TargetShape { accessors })?;
    Ok(targets.map(|items| Targets::from_vec(items)))
}

pub(crate) fn read_entries(
    alloc: Global,
    value: &Tree,
    accessors: usize,
) -> Result<Option<Entries>, NoMemory>
    ensures { IfOk result (λ o. o ≡ object_of (entries_fields accessors) (plain value.now)) }
{
    match value {
        Tree::Members(members) => read_members(alloc, members.as_slice(), accessors),
        _ => Ok(None),
    }
}

fn read_members(
    alloc: Global,
    items: &[Member],
    accessors: usize,
) -> Result<Option<Entries>, NoMemory>
    ensures { IfOk result (λ o. o ≡ entries_fields accessors (members (plain_entries items.now))) }
{
    let mut read = Vec::new(alloc);
    'entries: for at in 0..items.len() {
        let Some(entry) = Entry::read(alloc, &items[at], accessors)? else {
            return Ok(None);
        };
        read.push(entry)?;
    }
    Ok(Some(Entries::from_vec(read)))
}

impl Entry {
    // The key is copied as it is spelled.
    fn read(alloc: Global, member: &Member, accessors: usize) -> Result<Option<Entry>, NoMemory>
        ensures { IfOk result (λ o. o ≡ entry_of accessors (plain_member member.now)) }
    {
        let Some(accessor) = as_reference(&member.value, accessors) else {
            return Ok(None);
        };
        let name = Lexeme::from_slice(alloc, member.key.as_slice())?;
        Ok(Some(Entry { name, accessor }))
    }
}
