// What is written to a lent item or value stands in its place, and all else is printed as before.
use crate::printing::print;
use crate::reading::parse;
use gp_host::NoMemory;
use gp_tree::Tree;
use std::alloc::Global;

fn tree_of(alloc: Global, text: &str) -> Result<Tree, NoMemory> {
    match parse(alloc, text) {
        Ok(tree) => Ok(tree),
        Err(_) => Err(NoMemory),
    }
}

fn prints(alloc: Global, tree: &Tree, text: &str) -> Result<bool, NoMemory> {
    let bytes = print(alloc, tree)?;
    Ok(bytes.as_slice() == text.as_bytes())
}

fn item_changes(alloc: Global, text: &str, at: usize, changed: &str) -> Result<bool, NoMemory> {
    let mut tree = tree_of(alloc, text)?;
    if tree.item(at).is_none() {
        return Ok(false);
    }
    *tree.item_mut(at) = Tree::Null;
    prints(alloc, &tree, changed)
}

fn value_changes(alloc: Global, text: &str, key: &str, changed: &str) -> Result<bool, NoMemory> {
    let mut tree = tree_of(alloc, text)?;
    if tree.find(key).is_none() {
        return Ok(false);
    }
    *tree.find_mut(key) = Tree::Null;
    prints(alloc, &tree, changed)
}

// A member of an item of a member's list.
fn inner_changes(alloc: Global, text: &str, changed: &str) -> Result<bool, NoMemory> {
    let mut tree = tree_of(alloc, text)?;
    if tree.find("a").is_none() {
        return Ok(false);
    }
    let list = tree.find_mut("a");
    if list.item(1).is_none() {
        return Ok(false);
    }
    let value = Tree::number(alloc, 8)?;
    list.item_mut(1).set(alloc, "b", value)?;
    prints(alloc, &tree, changed)
}

fn inner_removes(alloc: Global, text: &str, changed: &str) -> Result<bool, NoMemory> {
    let mut tree = tree_of(alloc, text)?;
    let Some(item) = tree.item(1) else {
        return Ok(false);
    };
    if item.find("a").is_none() {
        return Ok(false);
    }
    let gone = tree.remove_in_value_of(1, "a", "b");
    let printed = prints(alloc, &tree, changed)?;
    Ok(gone && printed)
}

#[test]
fn lends_items(rt: HostRuntime) {
    const ROWS: &[(&str, usize, &str)] = &[
        ("[1]", 0, "[null]"),
        ("[1.0,[2],{\"a\":3}]", 0, "[null,[2],{\"a\":3}]"),
        ("[1.0,[2],{\"a\":3}]", 1, "[1.0,null,{\"a\":3}]"),
        ("[1.0,[2],{\"a\":3}]", 2, "[1.0,[2],null]"),
    ];
    for &(text, at, changed) in ROWS {
        assert!(rt; matches!(item_changes(rt.alloc(), text, at, changed), Ok(true)));
    }
}

#[test]
fn lends_values(rt: HostRuntime) {
    const ROWS: &[(&str, &str, &str)] = &[
        ("{\"a\":1}", "a", "{\"a\":null}"),
        (
            "{\"ab\":1,\"\\u0062\":[2],\"c\":-0}",
            "ab",
            "{\"ab\":null,\"\\u0062\":[2],\"c\":-0}",
        ),
        (
            "{\"ab\":1,\"\\u0062\":[2],\"c\":-0}",
            "b",
            "{\"ab\":1,\"\\u0062\":null,\"c\":-0}",
        ),
        (
            "{\"ab\":1,\"\\u0062\":[2],\"c\":-0}",
            "c",
            "{\"ab\":1,\"\\u0062\":[2],\"c\":null}",
        ),
    ];
    for &(text, key, changed) in ROWS {
        assert!(rt; matches!(value_changes(rt.alloc(), text, key, changed), Ok(true)));
    }
}

#[test]
fn lends_inner_values(rt: HostRuntime) {
    let text = "{\"x\":0,\"a\":[7,{\"b\":1,\"c\":2},9]}";
    let changed = "{\"x\":0,\"a\":[7,{\"b\":8,\"c\":2},9]}";
    assert!(rt; matches!(inner_changes(rt.alloc(), text, changed), Ok(true)));
    let text = "[0,{\"a\":{\"b\":1,\"c\":2}}]";
    let changed = "[0,{\"a\":{\"c\":2}}]";
    assert!(rt; matches!(inner_removes(rt.alloc(), text, changed), Ok(true)));
}
