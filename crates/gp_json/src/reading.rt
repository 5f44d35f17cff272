// Reading a text as a tree, or as its first fault.
ghost use Rattle.std.specs.Prelude.{◌≡◌, ◌⊎◌, ◌≤◌, ◌∷◌, ℕ, List, Err, IfOk, IfErr, MatchResult};
ghost use Rattle.gp_tree.specs.Plain.{PlainTree, PlainTrees, PlainMembers, plain, plain_member, plain_items, plain_entries};
ghost use Rattle.gp_json.specs.declared.fault.JsonFault.{JsonFault};
ghost use Rattle.gp_tree.specs.Sound.{depth, max_depth, IsSound};
ghost use Rattle.gp_json.specs.Fault.{IsTooDeep, HasFault};
ghost use Rattle.gp_json.specs.Deep.{Past, IsItem, Keyed, IsDeep, Tells};
ghost use Rattle.gp_json.specs.Spelling.{Spells};
ghost use Rattle.gp_tree.specs.Lexical.{IsString};
ghost use Rattle.gp_json.specs.Reading.{BeginsString, BeginsValue, BeginsItems, BeginsMember, BeginsMembers, HasNone};

use crate::cursor::Cursor;
use crate::fault::{JsonFault, JsonRefusal};
use gp_tree::{Lexeme, Member, Members, Tree, Trees};
use simdutf8::compat::from_utf8;
use std::alloc::Global;

const MAX_DEPTH: usize = 128;

// How many items stand in a block of their own size.
const FEW: usize = 8;

const TOO_DEEP: JsonRefusal = JsonRefusal::Fault(JsonFault::TooDeep);

const NOT_JSON: JsonRefusal = JsonRefusal::Fault(JsonFault::NotJson);

/// Reads a JSON text (RFC 8259, section 2) as the one tree that it spells. A text with a fault is
/// refused for the first that it has, in the order of `JsonFault`, unless memory runs out before.
///
/// Costs one pass over the bytes, and for each object no more than sorting its keys. Nothing nests
/// deeper than 128 levels.
pub fn read(alloc: Global, text: &[u8]) -> Result<Tree, JsonRefusal>
    ensures spelled { IfOk result (λ t. Spells text.now (plain t)) }
    ensures sound { IfOk result (λ t. IsSound (plain t)) }
    ensures only { IfOk result (λ t. (u : PlainTree) → Spells text.now u → plain t ≡ u) }
    ensures fault { (f : JsonFault) → result ≡ Err (JsonRefusal.Fault f) → HasFault text.now f }
    ensures told { (f : JsonFault) → HasFault text.now f
        → MatchResult result (λ _. ⊥) (λ r. (r ≡ JsonRefusal.Fault f) ⊎ (r ≡ JsonRefusal.Memory)) }
    ensures found { (t : PlainTree) → Spells text.now t → IsSound t
        → MatchResult result (λ u. plain u ≡ t) (λ r. r ≡ JsonRefusal.Memory) }
{
    let text = match from_utf8(text) {
        Ok(text) => text,
        Err(_) => return Err(JsonRefusal::Fault(JsonFault::NotUtf8)),
    };
    let tree = parse(alloc, text)?;
    match tree.has_distinct_keys(alloc) {
        Ok(true) => Ok(tree),
        Ok(false) => Err(JsonRefusal::Fault(JsonFault::DuplicateKey)),
        Err(_) => Err(JsonRefusal::Memory),
    }
}

// Reads the value that a text spells. Two keys of an object may be equal.
pub(crate) fn parse(alloc: Global, text: &str) -> Result<Tree, JsonRefusal>
    ensures spelled { IfOk result (λ t. Spells text.now (plain t)) }
    ensures shallow { IfOk result (λ t. depth (plain t) ≤ max_depth) }
    ensures only { IfOk result (λ t. (u : PlainTree) → Spells text.now u → plain t ≡ u) }
    ensures flat { IfOk result (λ _. IsTooDeep text.now → ⊥) }
    ensures fault { (f : JsonFault) → result ≡ Err (JsonRefusal.Fault f) → HasFault text.now f }
    ensures none { (f : JsonFault) → result ≡ Err (JsonRefusal.Fault f)
        → (t : PlainTree) → Spells text.now t → depth t ≤ max_depth → ⊥ }
{
    let mut cursor = Cursor::new(text);
    cursor.skip_space();
    let tree = read_value(alloc, &mut cursor, MAX_DEPTH)?;
    cursor.skip_space();
    if !cursor.is_empty() {
        return Err(NOT_JSON);
    }
    Ok(tree)
}

// Reads the value in front. Lists and objects may nest `depth` deep.
#[cycle(value)]
fn read_value(alloc: Global, text: &mut Cursor, depth: usize) -> Result<Tree, JsonRefusal>
    ensures ok { IfOk result (λ t. BeginsValue depth text.old (plain t) text.new) }
    ensures none { (f : JsonFault) → result ≡ Err (JsonRefusal.Fault f)
        → HasNone (BeginsValue depth text.old) }
    ensures deep { MatchResult result (λ _. IsDeep depth text.old → ⊥) (λ r. Tells r (IsDeep depth text.old)) }
{
    if text.take(b'[') {
        if depth == 0 {
            return Err(TOO_DEEP);
        }
        let items = read_items(alloc, text, depth - 1)?;
        let items = fitted(alloc, items);
        return Ok(Tree::List(Trees { items }));
    }
    if text.take(b'{') {
        if depth == 0 {
            return Err(TOO_DEEP);
        }
        let members = read_members(alloc, text, depth - 1)?;
        let members = fitted(alloc, members);
        return Ok(Tree::Members(Members { items: members }));
    }
    read_leaf(alloc, text, depth)
}

// The same items without room for more, where they are few and there is memory: in most texts the
// small lists and objects are so many that their room is a good part of the tree.
fn fitted<T: Drop>(alloc: Global, items: Vec<T>) -> Vec<T>
    ensures { result.items ≡ items.items }
{
    let mut items = items;
    if items.len() > FEW || items.len() == items.capacity() {
        return items;
    }
    let Ok(mut exact) = Vec::with_capacity(alloc, items.len()) else {
        return items;
    };
    if exact.append(&mut items).is_err() {
        return items;
    }
    exact
}

// Reads what follows `[`, through the bracket that closes.
#[cycle(value)]
fn read_items(alloc: Global, text: &mut Cursor, depth: usize) -> Result<Vec<Tree>, JsonRefusal>
    ensures ok { IfOk result (λ v. BeginsItems depth text.old (plain_items v.items) text.new) }
    ensures none { (f : JsonFault) → result ≡ Err (JsonRefusal.Fault f)
        → HasNone (BeginsItems depth text.old) }
    ensures deep { MatchResult result (λ _. Past IsItem (IsDeep depth) text.old → ⊥) (λ r. Tells r (Past IsItem (IsDeep depth) text.old)) }
{
    let mut items = Vec::new(alloc);
    text.skip_space();
    if text.take(b']') {
        return Ok(items);
    }
    'items: loop {
        let item = read_value(alloc, text, depth)?;
        if items.push(item).is_err() {
            return Err(JsonRefusal::Memory);
        }
        text.skip_space();
        if text.take(b']') {
            return Ok(items);
        }
        if !text.take(b',') {
            return Err(NOT_JSON);
        }
        text.skip_space();
    }
}

// Reads what follows `{`, through the bracket that closes.
#[cycle(value)]
fn read_members(alloc: Global, text: &mut Cursor, depth: usize) -> Result<Vec<Member>, JsonRefusal>
    ensures ok { IfOk result (λ v. BeginsMembers depth text.old (plain_entries v.items) text.new) }
    ensures none { (f : JsonFault) → result ≡ Err (JsonRefusal.Fault f)
        → HasNone (BeginsMembers depth text.old) }
    ensures deep { MatchResult result (λ _. Past (Keyed IsItem) (Keyed (IsDeep depth)) text.old → ⊥) (λ r. Tells r (Past (Keyed IsItem) (Keyed (IsDeep depth)) text.old)) }
{
    let mut items = Vec::new(alloc);
    text.skip_space();
    if text.take(b'}') {
        return Ok(items);
    }
    'members: loop {
        let item = read_member(alloc, text, depth)?;
        if items.push(item).is_err() {
            return Err(JsonRefusal::Memory);
        }
        text.skip_space();
        if text.take(b'}') {
            return Ok(items);
        }
        if !text.take(b',') {
            return Err(NOT_JSON);
        }
        text.skip_space();
    }
}

// Reads a key, a colon and a value.
#[cycle(value)]
fn read_member(alloc: Global, text: &mut Cursor, depth: usize) -> Result<Member, JsonRefusal>
    ensures ok { IfOk result (λ m. BeginsMember depth text.old (plain_member m) text.new) }
    ensures none { (f : JsonFault) → result ≡ Err (JsonRefusal.Fault f)
        → HasNone (BeginsMember depth text.old) }
    ensures deep { MatchResult result (λ _. Keyed (IsDeep depth) text.old → ⊥) (λ r. Tells r (Keyed (IsDeep depth) text.old)) }
{
    if !text.take(b'"') {
        return Err(NOT_JSON);
    }
    let key = read_string(alloc, text)?;
    text.skip_space();
    if !text.take(b':') {
        return Err(NOT_JSON);
    }
    text.skip_space();
    let value = read_value(alloc, text, depth)?;
    Ok(Member { key, value })
}

// Reads a string behind its first quote.
fn read_string(alloc: Global, text: &mut Cursor) -> Result<Lexeme, JsonRefusal>
    ensures ok { IfOk result (λ s. IsString s × BeginsString text.old s text.new) }
    ensures none { (f : JsonFault) → result ≡ Err (JsonRefusal.Fault f)
        → HasNone (BeginsString text.old) }
    ensures fault { IfErr result (λ r. Tells r ⊥) }
{
    let Some(string) = text.string() else {
        return Err(NOT_JSON);
    };
    match Lexeme::from_slice(alloc, string) {
        Ok(lexeme) => Ok(lexeme),
        Err(_) => Err(JsonRefusal::Memory),
    }
}

// Reads a value that is no list and no object.
fn read_leaf(alloc: Global, text: &mut Cursor, depth: usize) -> Result<Tree, JsonRefusal>
    requires list { (r : List ℕ) → text.old ≡ 91 ∷ r → ⊥ }
    requires object { (r : List ℕ) → text.old ≡ 123 ∷ r → ⊥ }
    ensures ok { IfOk result (λ t. BeginsValue depth text.old (plain t) text.new) }
    ensures none { (f : JsonFault) → result ≡ Err (JsonRefusal.Fault f)
        → HasNone (BeginsValue depth text.old) }
    ensures deep { MatchResult result (λ _. IsDeep depth text.old → ⊥) (λ r. Tells r (IsDeep depth text.old)) }
{
    if text.take_word(b"null") {
        return Ok(Tree::Null);
    }
    if text.take_word(b"true") {
        return Ok(Tree::Truth(true));
    }
    if text.take_word(b"false") {
        return Ok(Tree::Truth(false));
    }
    if text.take(b'"') {
        let string = read_string(alloc, text)?;
        return Ok(Tree::Text(string));
    }
    let Some(number) = text.number() else {
        return Err(NOT_JSON);
    };
    match Lexeme::from_slice(alloc, number) {
        Ok(lexeme) => Ok(Tree::Number(lexeme)),
        Err(_) => Err(JsonRefusal::Memory),
    }
}
