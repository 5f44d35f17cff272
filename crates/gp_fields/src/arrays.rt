// Lists of items of one kind, read item by item.
ghost use Rattle.std.specs.Prelude.{◌≡◌, IfOk, option_map};
ghost use Rattle.gp_tree.specs.Plain.{plain, plain_items, list};
ghost use Rattle.gp_fields.specs.declared.fault.FieldRefusal.TheVariants.{Fault};
ghost use Rattle.gp_fields.specs.Shapes.{Shaped, list_of};
ghost use Rattle.gp_fields.specs.Record.{lacking, items_of_shape, items_of_member, Answers};

use crate::fault::{FieldFault, FieldRefusal, Place};
use gp_host::NoMemory;
use gp_tree::Tree;
use std::alloc::Global;

// The shape of one kind of item.
pub(crate) trait ItemShape<'a, T> {
    ghost shape: { Self → Shaped T };

    // The item that a value stands for; `None` where it has another shape.
    fn read(&self, alloc: Global, value: &'a Tree) -> Result<Option<T>, NoMemory>
        ensures { IfOk result (λ o. o ≡ shape self.now (plain value.now)) };
}

// The items of an array of the root, up to the first of another shape; an array that is absent has none.
pub(crate) fn items_of<'a, T: Drop, S: ItemShape<'a, T>>(
    alloc: Global,
    root: &'a Tree,
    key: &str,
    member: Place,
    shape: &S,
) -> Result<Vec<T>, FieldRefusal>
    ensures { Answers (items_of_member member key.now (S.shape shape.now) (plain root.now)) (λ v. v.items) result }
{
    match root.find(key) {
        None => Ok(Vec::new(alloc)),
        Some(Tree::List(items)) => read_items(alloc, items.as_slice(), member, shape),
        Some(_) => Err(lacking(member, 0)),
    }
}

fn read_items<'a, T: Drop, S: ItemShape<'a, T>>(
    alloc: Global,
    items: &'a [Tree],
    member: Place,
    shape: &S,
) -> Result<Vec<T>, FieldRefusal>
    ensures { Answers (items_of_shape member (S.shape shape.now) (list (plain_items items.now))) (λ v. v.items) result }
{
    let mut read = Vec::new(alloc);
    'turns: for at in 0..items.len() {
        let Some(item) = shape.read(alloc, &items[at])? else {
            return Err(lacking(member, at));
        };
        read.push(item).map_err(|_| FieldRefusal::Memory)?;
    }
    Ok(read)
}

// The items of a list; `None` where one of them has another shape.
pub(crate) fn read_all<'a, T: Drop, S: ItemShape<'a, T>>(
    alloc: Global,
    items: &'a [Tree],
    shape: &S,
) -> Result<Option<Vec<T>>, NoMemory>
    ensures { IfOk result (λ o. option_map (λ v. v.items) o ≡ list_of (S.shape shape.now) (list (plain_items items.now))) }
{
    let mut read = Vec::new(alloc);
    'turns: for at in 0..items.len() {
        let Some(item) = shape.read(alloc, &items[at])? else {
            return Ok(None);
        };
        read.push(item)?;
    }
    Ok(Some(read))
}

// Item `at` of this member lacks the shape.
pub(crate) fn lacking(member: Place, at: usize) -> FieldRefusal
    ensures { result ≡ Fault (lacking member at) }
{
    FieldRefusal::Fault(FieldFault { member, at })
}
