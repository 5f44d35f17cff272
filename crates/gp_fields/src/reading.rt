// Members of an object of the JSON, read one by one by their shapes. Of a value that is no object none is there.
ghost use Rattle.std.specs.Prelude.{◌≡◌, option_map, MatchOption, Some, None};
ghost use Rattle.gp_tree.specs.Plain.{plain};
ghost use Rattle.gp_tree.specs.Values.{whole};
ghost use Rattle.gp_fields.specs.Shapes.{a_text, an_object, reference, required, optional, defaulted};

use gp_tree::{Lexeme, Tree};

// The number of an item of a list with this length.
pub(crate) fn as_reference(value: &Tree, len: usize) -> Option<u32>
    ensures { result ≡ reference len (plain value.now) }
{
    let at = value.whole()?;
    if (at as usize) < len { Some(at) } else { None }
}

/// A JSON string, as it is spelled between its quotes (RFC 8259, section 7); `None` of a value that is no string.
pub fn as_text(value: &Tree) -> Option<&Lexeme>
    ensures { option_map (λ s. s.now) result ≡ a_text (plain value.now) }
{
    match value {
        Tree::Text(spelling) => Some(spelling),
        _ => None,
    }
}

pub(crate) fn as_object(value: &Tree) -> Option<&Tree>
    ensures { option_map (λ t. plain t.now) result ≡ an_object (plain value.now) }
{
    match value {
        Tree::Members(_) => Some(value),
        _ => None,
    }
}

// ---- members that have to be there

pub(crate) fn required_whole(object: &Tree, name: &str) -> Option<u32>
    ensures { result ≡ required (plain object.now) name.now whole }
{
    object.find(name)?.whole()
}

pub(crate) fn required_reference(object: &Tree, name: &str, len: usize) -> Option<u32>
    ensures { result ≡ required (plain object.now) name.now (reference len) }
{
    as_reference(object.find(name)?, len)
}

pub(crate) fn required_text<'a>(object: &'a Tree, name: &str) -> Option<&'a Lexeme>
    ensures { MatchOption result (required (plain object.now) name.now a_text ≡ None)
        (λ s. required (plain object.now) name.now a_text ≡ Some s.now) }
{
    as_text(object.find(name)?)
}

// ---- members that may be absent: `Some(None)` where they are, `None` where they have another shape

pub(crate) fn optional_whole(object: &Tree, name: &str) -> Option<Option<u32>>
    ensures { result ≡ optional (plain object.now) name.now whole }
{
    match object.find(name) {
        None => Some(None),
        Some(value) => Some(Some(value.whole()?)),
    }
}

pub(crate) fn optional_reference(object: &Tree, name: &str, len: usize) -> Option<Option<u32>>
    ensures { result ≡ optional (plain object.now) name.now (reference len) }
{
    match object.find(name) {
        None => Some(None),
        Some(value) => Some(Some(as_reference(value, len)?)),
    }
}

pub(crate) fn optional_text<'a>(object: &'a Tree, name: &str) -> Option<Option<&'a Lexeme>>
    ensures { option_map (option_map (λ s. s.now)) result ≡ optional (plain object.now) name.now a_text }
{
    match object.find(name) {
        None => Some(None),
        Some(value) => Some(Some(as_text(value)?)),
    }
}

pub(crate) fn optional_object<'a>(object: &'a Tree, name: &str) -> Option<Option<&'a Tree>>
    ensures { option_map (option_map (λ t. plain t.now)) result ≡ optional (plain object.now) name.now an_object }
{
    match object.find(name) {
        None => Some(None),
        Some(value) => Some(Some(as_object(value)?)),
    }
}

pub(crate) fn whole_or(object: &Tree, name: &str, default: u32) -> Option<u32>
    ensures { result ≡ defaulted (plain object.now) name.now default whole }
{
    match object.find(name) {
        None => Some(default),
        Some(value) => value.whole(),
    }
}
