// The calls that make and edit a tree.
ghost use Rattle.std.specs.Prelude.{IsTrue, IsSome, option_and_then};
ghost use Rattle.gp_tree.specs.Plain.{plain};
ghost use Rattle.gp_tree.specs.Look.{item};
ghost use Rattle.gp_tree.specs.Find.{find_member};

use crate::printing::print;
use crate::reading::read;
use gp_tree::Tree;
use std::alloc::Global;
use std::test::Fail;

fn prints(alloc: Global, tree: &Tree, text: &str) -> Result<bool, Fail> {
    let bytes = print(alloc, tree)?;
    Ok(bytes.as_slice() == text.as_bytes())
}

// A member keeps its place and spelling, a new one goes last.
#[test]
fn edits_members(rt: HostRuntime) -> Result<(), Fail> {
    let alloc = rt.alloc();
    let mut tree = read(alloc, b"{\"a\":[1,2],\"\\u0062\":{},\"c\":null}")?;
    tree.set(alloc, "b", Tree::number(alloc, 7)?)?;
    tree.set(alloc, "d", Tree::text(alloc, "x y")?)?;
    assert!(rt; tree.remove("c"));
    assert!(rt; !tree.remove("c"));
    assert!(rt; prints(alloc, &tree, "{\"a\":[1,2],\"\\u0062\":7,\"d\":\"x y\"}")?);
    let mut other = Tree::list(alloc);
    other.set(alloc, "a", Tree::Null)?;
    assert!(rt; !other.remove("a") && prints(alloc, &other, "[]")?);
    Ok(())
}

#[test]
fn edits_items(rt: HostRuntime) -> Result<(), Fail> {
    const VALUES: &[u64] = &[5, 4_294_967_296, 18_446_744_073_709_551_615];
    let alloc = rt.alloc();
    let mut tree = Tree::list(alloc);
    for &value in VALUES {
        tree.append(Tree::number(alloc, value)?)?;
    }
    assert!(rt; tree.remove_item(0));
    assert!(rt; !tree.remove_item(2));
    assert!(rt; prints(alloc, &tree, "[4294967296,18446744073709551615]")?);
    let mut other = Tree::object(alloc);
    other.append(Tree::Null)?;
    assert!(rt; !other.remove_item(0) && prints(alloc, &other, "{}")?);
    Ok(())
}

fn has_item(tree: &Tree, at: usize) -> bool
    ensures { IsTrue result → IsSome (item (plain tree.now) at) }
{
    tree.item(at).is_some()
}

fn has_member(tree: &Tree, name: &str) -> bool
    ensures { IsTrue result → IsSome (find_member name.now (plain tree.now)) }
{
    tree.find(name).is_some()
}

fn has_item_of(tree: &Tree, name: &str, at: usize) -> bool
    ensures { IsTrue result
        → IsSome (option_and_then (λ t. item t at) (find_member name.now (plain tree.now))) }
{
    match tree.find(name) {
        Some(list) => list.item(at).is_some(),
        None => false,
    }
}

#[test]
fn edits_parts(rt: HostRuntime) -> Result<(), Fail> {
    let alloc = rt.alloc();
    let mut tree = read(alloc, b"[0,{}]")?;
    assert!(rt; has_item(&tree, 1));
    tree.set_in_item(alloc, 1, "k", Tree::Truth(true))?;
    assert!(rt; has_item(&tree, 0));
    tree.put_item(0, Tree::object(alloc));
    assert!(rt; prints(alloc, &tree, "[{},{\"k\":true}]")?);
    Ok(())
}

#[test]
fn edits_parts_of_members(rt: HostRuntime) -> Result<(), Fail> {
    let alloc = rt.alloc();
    let mut tree = read(alloc, b"{\"a\":[{\"x\":1},0],\"b\":{}}")?;
    assert!(rt; has_item_of(&tree, "a", 0));
    tree.set_in_item_of(alloc, "a", 0, "y", Tree::Null)?;
    assert!(rt; has_member(&tree, "b"));
    tree.set_in_value(alloc, "b", "z", Tree::Truth(false))?;
    assert!(rt;
        prints(
            alloc,
            &tree,
            "{\"a\":[{\"x\":1,\"y\":null},0],\"b\":{\"z\":false}}"
        )?
    );
    Ok(())
}
