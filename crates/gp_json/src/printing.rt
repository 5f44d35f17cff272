// The compact text of a tree.
ghost use Rattle.std.specs.Prelude.{◌≡◌, ◌++◌, IfOk, OnOk};
ghost use Rattle.gp_tree.specs.Plain.{plain, plain_member, plain_items, plain_entries};
ghost use Rattle.gp_tree.specs.Sound.{IsSpelled};
ghost use Rattle.gp_json.specs.Spelling.{Spells};
ghost use Rattle.gp_json.specs.Text.{quoted, text_of, items_text, member_text, members_text};

use gp_host::NoMemory;
use gp_tree::{Lexeme, Member, Tree};
use std::alloc::{AllocError, Global};

/// The compact text of a tree: no white space outside strings, each number, string and key as it is
/// spelled, items and members in order. `read` reads it as the same tree, where the tree is sound.
pub fn print(alloc: Global, tree: &Tree) -> Result<Vec<u8>, NoMemory>
    ensures text { IfOk result (λ v. v.items ≡ text_of (plain tree.now)) }
    ensures spelled { IfOk result (λ v. IsSpelled (plain tree.now) → Spells v.items (plain tree.now)) }
{
    let mut out = Vec::new(alloc);
    put_tree(&mut out, tree)?;
    Ok(out)
}

#[cycle(put)]
fn put_tree(out: &mut Vec<u8>, tree: &Tree) -> Result<(), AllocError>
    ensures { OnOk result (out.new.items ≡ out.old.items ++ text_of (plain tree.now)) }
{
    match tree {
        Tree::Null => out.extend_from_slice(b"null"),
        Tree::Truth(true) => out.extend_from_slice(b"true"),
        Tree::Truth(false) => out.extend_from_slice(b"false"),
        Tree::Number(spelling) => out.extend_from_slice(spelling.as_slice()),
        Tree::Text(spelling) => put_quoted(out, spelling),
        Tree::List(items) => {
            out.push(b'[')?;
            put_items(out, &items.items)?;
            out.push(b']')?;
            Ok(())
        }
        Tree::Members(members) => {
            out.push(b'{')?;
            put_members(out, &members.items)?;
            out.push(b'}')?;
            Ok(())
        }
    }
}

fn put_quoted(out: &mut Vec<u8>, spelling: &Lexeme) -> Result<(), AllocError>
    ensures { OnOk result (out.new.items ≡ out.old.items ++ quoted spelling.now) }
{
    out.push(b'"')?;
    out.extend_from_slice(spelling.as_slice())?;
    out.push(b'"')?;
    Ok(())
}

#[cycle(put)]
fn put_items(out: &mut Vec<u8>, items: &[Tree]) -> Result<(), AllocError>
    ensures { OnOk result (out.new.items ≡ out.old.items ++ items_text (plain_items items.now)) }
{
    let mut first = true;
    for item in items {
        if !first {
            out.push(b',')?;
        }
        first = false;
        put_tree(out, item)?;
    }
    Ok(())
}

#[cycle(put)]
fn put_members(out: &mut Vec<u8>, members: &[Member]) -> Result<(), AllocError>
    ensures { OnOk result (out.new.items
        ≡ out.old.items ++ members_text (plain_entries members.now)) }
{
    let mut first = true;
    for member in members {
        if !first {
            out.push(b',')?;
        }
        first = false;
        put_member(out, member)?;
    }
    Ok(())
}

#[cycle(put)]
fn put_member(out: &mut Vec<u8>, member: &Member) -> Result<(), AllocError>
    ensures { OnOk result (out.new.items ≡ out.old.items ++ member_text (plain_member member.now)) }
{
    put_quoted(out, &member.key)?;
    out.push(b':')?;
    put_tree(out, &member.value)?;
    Ok(())
}
