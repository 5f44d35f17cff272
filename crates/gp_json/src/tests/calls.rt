// The calls that look into a tree.
use crate::reading::read;
use gp_tree::{Lexeme, Member, Members, Tree, Trees, key_is, same_key};
use std::alloc::Global;
use std::test::Fail;

#[test]
fn takes_a_whole_number(rt: HostRuntime) -> Result<(), Fail> {
    const ROWS: &[(&str, Option<u32>)] = &[
        ("0", Some(0)),
        ("7", Some(7)),
        ("4294967295", Some(4_294_967_295)),
        ("4294967296", None),
        ("42949672950", None),
        ("18446744073709551617", None),
        ("1.0", None),
        ("1e2", None),
        ("-0", None),
        ("-1", None),
        ("\"1\"", None),
        ("[1]", None),
        ("null", None),
    ];
    for &(text, value) in ROWS {
        let tree = read(rt.alloc(), text.as_bytes())?;
        assert_eq!(rt; tree.whole(), value, "{text}");
    }
    Ok(())
}

#[test]
fn takes_ascii(rt: HostRuntime) -> Result<(), Fail> {
    const ROWS: &[(&str, Option<&[u8]>)] = &[
        ("\"\"", Some(b"")),
        ("\"ab c\"", Some(b"ab c")),
        ("\"\\u0041\\n\\/\\\\\\\"\\u007f\"", Some(b"A\n/\\\"\x7F")),
        ("\"\\u0000\"", Some(b"\0")),
        ("\"\\u0080\"", None),
        ("\"a\u{E9}\"", None),
        ("\"\\uD834\"", None),
        ("7", None),
        ("[\"a\"]", None),
    ];
    for &(text, expected) in ROWS {
        let tree = read(rt.alloc(), text.as_bytes())?;
        let bytes = tree.ascii(rt.alloc())?;
        let found = bytes.as_ref().map(|bytes| bytes.as_slice());
        assert_eq!(rt; found, expected, "{text}");
    }
    Ok(())
}

fn lexeme(alloc: Global, spelling: &str) -> Result<Lexeme, Fail> {
    Ok(Lexeme::from_slice(alloc, spelling.as_bytes())?)
}

#[test]
fn compares_keys_by_their_units(rt: HostRuntime) -> Result<(), Fail> {
    const ROWS: &[(&str, &str, bool)] = &[
        ("a", "\\u0061", true),
        ("\u{1D11E}", "\\uD834\\uDD1E", true),
        ("\u{1D11E}", "\\uD834", false),
        ("\\uD834", "\\ud834", true),
        ("\\/\\b", "/\\u0008", true),
        ("\u{FFFF}", "\\uFFFF", true),
        ("a", "A", false),
        ("", "", true),
        ("a", "ab", false),
        ("\\u0061", "u0061", false),
    ];
    for &(left, right, equal) in ROWS {
        let a = lexeme(rt.alloc(), left)?;
        let b = lexeme(rt.alloc(), right)?;
        assert_eq!(rt; same_key(&a, &b), equal, "{left} {right}");
        assert_eq!(rt; same_key(&b, &a), equal, "{right} {left}");
    }
    Ok(())
}

#[test]
fn compares_a_key_with_a_name(rt: HostRuntime) -> Result<(), Fail> {
    let name = lexeme(rt.alloc(), "\\u006Ea\\u006De")?;
    assert!(rt; key_is(&name, "name") && !key_is(&name, "names") && !key_is(&name, "nam"));
    Ok(())
}

const MEMBERS: &[u8] = b"{\"a\":[5,[],{}],\"\\u0062\":6,\"c\":{\"a\":7}}";

#[test]
fn finds_members(rt: HostRuntime) -> Result<(), Fail> {
    let tree = read(rt.alloc(), MEMBERS)?;
    assert_eq!(rt; tree.find("b").and_then(Tree::whole), Some(6));
    assert!(rt; tree.find("d").is_none() && tree.item(0).is_none());
    assert_eq!(rt; tree.len(), 0);
    let inner = tree.find("c").and_then(|object| object.find("a"));
    assert_eq!(rt; inner.and_then(Tree::whole), Some(7));
    Ok(())
}

#[test]
fn finds_items(rt: HostRuntime) -> Result<(), Fail> {
    let tree = read(rt.alloc(), MEMBERS)?;
    let Some(list) = tree.find("a") else {
        return Ok(assert!(rt; false));
    };
    assert_eq!(rt; list.len(), 3);
    assert_eq!(rt; list.item(0).and_then(Tree::whole), Some(5));
    assert!(rt; list.item(2).is_some() && list.item(3).is_none() && list.find("a").is_none());
    Ok(())
}

// Objects in each other, keys spelled with an escape, and members so named that hold no object.
const NAMED: &[u8] = b"{\"extensions\":{\"A\":{\"extensions\":{\"B\":1}},\"\\u0043\":[]},\
    \"extras\":{\"\\u0065xtensions\":{\"D\":null,\"E\":{\"F\":2}}},\
    \"list\":[{\"extensions\":[{\"G\":3}]},{\"extensions\":null},{\"extensions\":{}},\
    {\"extensions\":{\"extensions\":{\"H\":4}}}],\"extension\":{\"I\":5}}";

// The keys under a name, each with a space behind it.
fn keys_text(alloc: Global, tree: &Tree, name: &str) -> Result<Vec<u8>, Fail> {
    let mut found = Vec::new(alloc);
    for key in tree.keys_under(alloc, name)? {
        found.extend_from_slice(key.as_slice())?;
        found.push(b' ')?;
    }
    Ok(found)
}

#[test]
fn lists_the_keys_under_a_name(rt: HostRuntime) -> Result<(), Fail> {
    const ROWS: &[(&str, &str)] = &[
        ("extensions", "A \\u0043 B D E extensions H "),
        ("extras", "\\u0065xtensions "),
        ("extension", "I "),
        ("list", ""),
        ("absent", ""),
    ];
    let tree = read(rt.alloc(), NAMED)?;
    for &(name, expected) in ROWS {
        let found = keys_text(rt.alloc(), &tree, name)?;
        assert_eq!(rt; found.as_slice(), expected.as_bytes(), "{name}");
    }
    Ok(())
}

#[test]
fn makes_lexemes_of_bytes(rt: HostRuntime) -> Result<(), Fail> {
    const SPELLINGS: &[&str] = &["\\n", "sixteen bytes and more"];
    for &spelling in SPELLINGS {
        let bytes = lexeme(rt.alloc(), spelling)?;
        assert_eq!(rt; bytes.as_slice(), spelling.as_bytes());
    }
    Ok(())
}

#[test]
fn makes_lists_of_vectors(rt: HostRuntime) -> Result<(), Fail> {
    let mut items = Vec::new(rt.alloc());
    items.push(Tree::Truth(true))?;
    let list = Trees::from_vec(items);
    assert_eq!(rt; list.as_slice().len(), 1);
    assert_eq!(rt; list.into_vec().len(), 1);
    Ok(())
}

#[test]
fn makes_objects_of_vectors(rt: HostRuntime) -> Result<(), Fail> {
    let alloc = rt.alloc();
    let mut entries = Vec::new(alloc);
    entries.push(Member {
        key: lexeme(alloc, "k")?,
        value: Tree::Null,
    })?;
    let object = Members::from_vec(entries);
    assert_eq!(rt; object.as_slice().len(), 1);
    assert_eq!(rt; object.into_vec().len(), 1);
    Ok(())
}
