// What is left of a text while it is read, a token at a time.
ghost use Rattle.std.specs.Prelude.{◌≡◌, ◌<◌, ◌≤◌, ◌⊎◌, ℕ, List, [], ◌∷◌, ◌++◌, length, take, drop, true, false, MatchOption, IsTrue, ◌↔◌, OnOk, IfSome};
ghost use Rattle.gp_tree.specs.Lexical.{Each, IsSpace, IsChar, IsChars, IsNumber, IsString};
ghost use Rattle.std.specs.Str.{IsUtf8};
ghost use Rattle.gp_json.specs.Reading.{EndsSpace, EndsNumber, IsNumberByte, BeginsNumber, BeginsString, HasNone};

use crate::lexing::{is_number, number_len, space_len, string_len};
use std::marker::Model;

// What is left of a text, which is UTF-8. A clause sees its bytes.
#[derive(Drop)]
pub(crate) struct Cursor<'a> {
    rest: &'a [u8],
}

impl<'a> Model for Cursor<'a> {
    ghost use Rattle.std.specs.Prelude.{ℕ, List, ◌≡◌, true};
    ghost use Rattle.std.specs.Str.{is_utf8};

    ghost Value = { List ℕ };

    ghost view = { λ c. c.rest.now };

    ghost invariant = { λ c. is_utf8 c.rest.now ≡ true };
}

impl<'a> Cursor<'a> {
    pub(crate) fn new(text: &'a str) -> Cursor<'a>
        ensures { result ≡ text.now }
    {
        Cursor {
            rest: text.as_bytes(),
        }
    }

    pub(crate) fn is_empty(&self) -> bool
        ensures { IsTrue result ↔ (self.now ≡ []) }
    {
        self.rest.is_empty()
    }

    // Passes over ASCII bytes.
    fn advance(&mut self, n: usize)
        requires within { n ≤ length self.old }
        requires ascii { Each (λ x. x < 128) (take n self.old) }
        ensures { self.new ≡ drop n self.old }
    {
        self.rest = &self.rest[n..];
    }

    // Passes over white space.
    pub(crate) fn skip_space(&mut self)
        ensures space { (a : List ℕ) × IsSpace a × (self.old ≡ a ++ self.new) }
        ensures ends { EndsSpace self.new }
    {
        let n = space_len(self.rest);
        self.advance(n);
    }

    // Takes this byte, if it is the next.
    pub(crate) fn take(&mut self, byte: u8) -> bool
        requires { byte < 128 }
        ensures taken { result ≡ true → self.old ≡ byte ∷ self.new }
        ensures other { result ≡ false → (r : List ℕ) → self.old ≡ byte ∷ r → ⊥ }
        ensures stays { result ≡ false → self.new ≡ self.old }
    {
        if self.rest.is_empty() || self.rest[0] != byte {
            return false;
        }
        self.advance(1);
        true
    }

    // Takes these bytes, if they are the next.
    pub(crate) fn take_word(&mut self, word: &[u8]) -> bool
        requires { Each (λ x. x < 128) word.now }
        ensures taken { result ≡ true → self.old ≡ word.now ++ self.new }
        ensures other { result ≡ false → (r : List ℕ) → self.old ≡ word.now ++ r → ⊥ }
        ensures stays { result ≡ false → self.new ≡ self.old }
    {
        if !self.rest.starts_with(word) {
            return false;
        }
        self.advance(word.len());
        true
    }

    // Takes a number, if one stands in front.
    pub(crate) fn number(&mut self) -> Option<&'a [u8]>
        ensures { MatchOption result (HasNone (BeginsNumber self.old))
            (λ n. BeginsNumber self.old n.now self.new) }
    {
        let n = number_len(self.rest);
        let number = &self.rest[..n];
        if !is_number(number) {
            return None;
        }
        self.advance(n);
        Some(number)
    }

    // Takes a string behind its first quote, and its last one.
    pub(crate) fn string(&mut self) -> Option<&'a [u8]>
        ensures { MatchOption result (HasNone (BeginsString self.old))
            (λ s. IsUtf8 s.now × BeginsString self.old s.now self.new) }
    {
        let n = string_len(self.rest)?;
        let string = &self.rest[..n];
        self.rest = &self.rest[n + 1..];
        Some(string)
    }
}
