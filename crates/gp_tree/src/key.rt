// Comparing keys by the 16-bit units that they stand for.
ghost use Rattle.std.specs.Prelude.{◌≡◌, ◌≢◌, ◌↔◌, IsTrue};
ghost use Rattle.gp_tree.specs.Key.{units};
ghost use Rattle.gp_tree.specs.Lexical.{Each};
ghost use Rattle.gp_tree.specs.EqualKeys.{IsPlainByte};

use crate::lexeme::Lexeme;
use crate::units::Units;

/// Whether two strings stand for the same 16-bit units (RFC 8259, section 8.3): `a` and `\u0061` do,
/// and a character past U+FFFF and its pair of escapes. An escaped surrogate on its own is a unit
/// like any other. Takes no memory.
pub fn same_key(a: &Lexeme, b: &Lexeme) -> bool
    ensures { IsTrue result ↔ (units a.now ≡ units b.now) }
{
    have_same_units(a.as_slice(), b.as_slice())
}

// Whether two spelled strings have the same units. ASCII without an escape stands for itself.
fn have_same_units(a: &[u8], b: &[u8]) -> bool
    ensures { IsTrue result ↔ (units a.now ≡ units b.now) }
{
    if begin_apart(a, b) {
        return false;
    }
    if is_plain(a) && is_plain(b) {
        return a == b;
    }
    let mut left = Units::new(a);
    let mut right = Units::new(b);
    'units: loop {
        let x = left.next();
        let y = right.next();
        if x != y {
            return false;
        }
        if x.is_none() {
            return true;
        }
    }
}

/// Whether a string stands for this ASCII name, of which each character is one unit (RFC 8259,
/// section 8.3). Takes no memory.
pub fn key_is(key: &Lexeme, name: &str) -> bool
    ensures { IsTrue result ↔ (units key.now ≡ name.now) }
{
    has_units(key.as_slice(), name.as_bytes())
}

// Whether a spelled string has these units, each below 256.
pub(crate) fn has_units(spelling: &[u8], name: &[u8]) -> bool
    ensures { IsTrue result ↔ (units spelling.now ≡ name.now) }
{
    if differ_at_first(spelling, name) {
        return false;
    }
    let mut left = Units::new(spelling);
    'bytes: for i in 0..name.len() {
        if left.next() != Some(name[i] as u32) {
            return false;
        }
    }
    left.next().is_none()
}

// Whether the first bytes show that a spelled string has other units than these.
#[tactic(auto, using(crate::proofs::PlainKeys::other_first))]
fn differ_at_first(spelling: &[u8], name: &[u8]) -> bool
    ensures { IsTrue result → units spelling.now ≢ name.now }
{
    !spelling.is_empty()
        && !name.is_empty()
        && spelling[0] < 128
        && spelling[0] != b'\\'
        && spelling[0] != name[0]
}

// Whether the first bytes show that two spelled strings have other units.
#[tactic(auto, using(crate::proofs::PlainKeys::firsts_apart))]
fn begin_apart(a: &[u8], b: &[u8]) -> bool
    ensures { IsTrue result → units a.now ≢ units b.now }
{
    !a.is_empty() && !b.is_empty() && is_plain_byte(a[0]) && is_plain_byte(b[0]) && a[0] != b[0]
}

// Whether a string is ASCII without an escape. No byte ends the loop early, so that it becomes
// steps on vectors.
pub(crate) fn is_plain(string: &[u8]) -> bool
    ensures { IsTrue result → Each IsPlainByte string.now }
{
    let mut plain = true;
    for i in 0..string.len() {
        plain &= is_plain_byte(string[i]);
    }
    plain
}

fn is_plain_byte(x: u8) -> bool
    ensures { IsTrue result ↔ IsPlainByte x }
{
    (x < 128) & (x != b'\\')
}
