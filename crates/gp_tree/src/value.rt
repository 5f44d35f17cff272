// The values of numbers and strings, and trees made of values.
ghost use Rattle.std.specs.Prelude.{◌≡◌, ◌^◌, IfOk, option_map};
ghost use Rattle.std.specs.Fmt.{decimal};
ghost use Rattle.gp_tree.specs.Plain.{plain, number as a_number, text as a_text};
ghost use Rattle.gp_tree.specs.Key.{units};
ghost use Rattle.gp_tree.specs.Sound.{IsSound};
ghost use Rattle.gp_tree.specs.Values.{whole, whole_of, ascii, ascii_of, IsName};

use crate::lexeme::Lexeme;
use crate::tree::Tree;
use crate::units::Units;
use gp_host::NoMemory;
use std::alloc::Global;

const MAX_WHOLE: u64 = 4_294_967_295;

impl Tree {
    /// The value of a number that is spelled with digits alone, if it is below 2^32. `None` of
    /// every other spelling, as `1.0` and `-0`, and of a tree that is no number.
    pub fn whole(&self) -> Option<u32>
        ensures { result ≡ whole (plain self.now) }
    {
        match self {
            Tree::Number(spelling) => whole_value(spelling.as_slice()),
            _ => None,
        }
    }

    /// The characters that a string stands for, if all of them are ASCII. `None` where one is not,
    /// and of a tree that is no string.
    pub fn ascii(&self, alloc: Global) -> Result<Option<Vec<u8>>, NoMemory>
        ensures { IfOk result (λ o. option_map (λ v. v.items) o ≡ ascii (plain self.now)) }
    {
        match self {
            Tree::Text(spelling) => spelling.ascii(alloc),
            _ => Ok(None),
        }
    }

    /// The number that is spelled by the decimal digits of this value.
    pub fn number(alloc: Global, value: u64) -> Result<Tree, NoMemory>
        ensures number { IfOk result (λ t. plain t ≡ a_number (decimal value)) }
        ensures sound { IfOk result (λ t. IsSound (plain t)) }
    {
        let digits = value.to_string(alloc)?;
        let spelling = Lexeme::from_slice(alloc, digits.as_bytes())?;
        Ok(Tree::Number(spelling))
    }

    /// The string that is spelled by this text. Printable ASCII without `"` and `\` stands for
    /// itself (RFC 8259, section 7).
    pub fn text(alloc: Global, text: &str) -> Result<Tree, NoMemory>
        ensures text { IfOk result (λ t. plain t ≡ a_text text.now) }
        ensures sound { IfOk result (λ t. IsName text.now → IsSound (plain t)) }
    {
        let spelling = Lexeme::from_slice(alloc, text.as_bytes())?;
        Ok(Tree::Text(spelling))
    }
}

impl Lexeme {
    /// The characters that a spelled string stands for, if all of them are ASCII. `None` where one
    /// is not.
    pub fn ascii(&self, alloc: Global) -> Result<Option<Vec<u8>>, NoMemory>
        ensures { IfOk result (λ o. option_map (λ v. v.items) o ≡ ascii_of (units self.now)) }
    {
        ascii_units(alloc, self.as_slice())
    }
}

fn whole_value(text: &[u8]) -> Option<u32>
    ensures { result ≡ whole_of text.now }
{
    let mut value = 0u64;
    'digits: for i in 0..text.len() {
        if text[i] < b'0' || text[i] > b'9' {
            return None;
        }
        value = value * 10 + (text[i] - b'0') as u64;
        if value > MAX_WHOLE {
            return None;
        }
    }
    Some(value as u32)
}

fn ascii_units(alloc: Global, spelling: &[u8]) -> Result<Option<Vec<u8>>, NoMemory>
    ensures { IfOk result (λ o. option_map (λ v. v.items) o ≡ ascii_of (units spelling.now)) }
{
    let mut bytes = Vec::new(alloc);
    let mut left = Units::new(spelling);
    'units: loop {
        let Some(unit) = left.next() else {
            return Ok(Some(bytes));
        };
        if unit >= 128 {
            return Ok(None);
        }
        bytes.push(unit as u8)?;
    }
}
