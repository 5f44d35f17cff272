// How long the white space, number or string is that a text begins with.
ghost use Rattle.std.specs.Prelude.{◌≡◌, ◌<◌, ◌≤◌, ◌⊎◌, ◌↔◌, ℕ, ◌+◌, List, [], ◌∷◌, ◌++◌, length, take, drop, IsTrue, IfSome, MatchOption};
ghost use Rattle.gp_tree.specs.Lexical.{Each, IsBlank, IsDigit, IsDigits, IsEscaped, IsHexDigit, IsSpace, IsExp, IsNumber, IsUnescaped, IsChar, IsChars};
ghost use Rattle.gp_json.specs.Reading.{IsNumberByte, HasHexDigits, EndsDigits, IsUnsigned, IsFraction, EndsSpace, EndsNumber, BeginsString, HasNone};

// How many bytes of a string are tested at once: as many as the compiler tests in two vectors.
const BLOCK: usize = 32;

// How many bytes of a string are tested before blocks are.
const NEAR: usize = 16;

fn is_blank(x: u8) -> bool
    ensures { IsTrue result ↔ IsBlank x }
{
    x == b' ' || x == b'\t' || x == b'\n' || x == b'\r'
}

fn is_number_byte(x: u8) -> bool
    ensures { IsTrue result ↔ IsNumberByte x }
{
    (x >= b'0' && x <= b'9') || x == b'-' || x == b'+' || x == b'.' || x == b'e' || x == b'E'
}

fn is_escaped(x: u8) -> bool
    ensures { IsTrue result ↔ IsEscaped x }
{
    x == b'"'
        || x == b'\\'
        || x == b'/'
        || x == b'b'
        || x == b'f'
        || x == b'n'
        || x == b'r'
        || x == b't'
}

// Not `&&`: where each test is made, many bytes are tested at once.
fn is_unescaped(x: u8) -> bool
    ensures { IsTrue result ↔ IsUnescaped x }
{
    (x >= 32) & (x != b'"') & (x != b'\\')
}

fn is_hex_digit(x: u8) -> bool
    ensures { IsTrue result ↔ IsHexDigit x }
{
    (x >= b'0' && x <= b'9') || (x >= b'A' && x <= b'F') || (x >= b'a' && x <= b'f')
}

// How many bytes of white space stand in front.
pub(crate) fn space_len(text: &[u8]) -> usize
    ensures within { result ≤ length text.now }
    ensures space { IsSpace (take result text.now) }
    ensures ends { EndsSpace (drop result text.now) }
{
    for i in 0..text.len() {
        if !is_blank(text[i]) {
            return i;
        }
    }
    text.len()
}

// How many bytes that can stand in a number stand in front.
pub(crate) fn number_len(text: &[u8]) -> usize
    ensures within { result ≤ length text.now }
    ensures number { Each IsNumberByte (take result text.now) }
    ensures ends { EndsNumber (drop result text.now) }
{
    for i in 0..text.len() {
        if !is_number_byte(text[i]) {
            return i;
        }
    }
    text.len()
}

// The length of the character of a string that stands in front, or 0 where none does.
fn char_len(text: &[u8]) -> usize
    ensures within { result ≤ length text.now }
    ensures found { 0 < result → IsChar (take result text.now) }
    ensures none { result ≡ 0 → (c s : List ℕ) → IsChar c → text.now ≡ c ++ s → ⊥ }
{
    if text.is_empty() {
        return 0;
    }
    if text[0] != b'\\' {
        if text[0] < 32 || text[0] == b'"' {
            return 0;
        }
        return 1;
    }
    if text.len() < 2 {
        return 0;
    }
    if text[1] != b'u' {
        if is_escaped(text[1]) {
            return 2;
        }
        return 0;
    }
    if has_hex_digits(text) { 6 } else { 0 }
}

// Whether four hex digits follow the first two bytes.
fn has_hex_digits(text: &[u8]) -> bool
    ensures { IsTrue result ↔ HasHexDigits text.now }
{
    text.len() >= 6
        && is_hex_digit(text[2])
        && is_hex_digit(text[3])
        && is_hex_digit(text[4])
        && is_hex_digit(text[5])
}

// Whether the block of bytes at this place stands for itself in a string. No byte ends the loop
// early, so that it becomes a few steps on vectors.
fn is_block_unescaped(text: &[u8], at: usize) -> bool
    requires { at + 32 ≤ length text.now }
    ensures { IsTrue result → Each IsUnescaped (take 32 (drop at text.now)) }
{
    let mut unescaped = true;
    for i in 0..BLOCK {
        unescaped &= is_unescaped(text[at + i]);
    }
    unescaped
}

// How many bytes of blocks that stand for themselves in a string stand in front.
fn blocks_len(text: &[u8]) -> usize
    ensures within { result ≤ length text.now }
    ensures unescaped { Each IsUnescaped (take result text.now) }
{
    let mut at = 0;
    'tests: while text.len() - at >= BLOCK {
        if !is_block_unescaped(text, at) {
            return at;
        }
        at += BLOCK;
    }
    at
}

// How many bytes that stand for themselves in a string stand in front, or some of them: those of a
// short string one by one, and blocks only behind them.
fn unescaped_len(text: &[u8]) -> usize
    ensures within { result ≤ length text.now }
    ensures unescaped { Each IsUnescaped (take result text.now) }
{
    let near = text.len().min(NEAR);
    for i in 0..near {
        if !is_unescaped(text[i]) {
            return i;
        }
    }
    near + blocks_len(&text[near..])
}

// The length of the string in front of the first quote that ends one.
pub(crate) fn string_len(text: &[u8]) -> Option<usize>
    ensures within { IfSome result (λ n. n < length text.now) }
    ensures cases { MatchOption result (HasNone (BeginsString text.now))
        (λ n. BeginsString text.now (take n text.now) (drop (n + 1) text.now)) }
{
    let mut i = 0;
    'chars: loop {
        i += unescaped_len(&text[i..]);
        if i == text.len() {
            return None;
        }
        if text[i] == b'"' {
            return Some(i);
        }
        let n = char_len(&text[i..]);
        if n == 0 {
            return None;
        }
        i += n;
    }
}

// How many digits stand in front.
fn digits_len(text: &[u8]) -> usize
    ensures within { result ≤ length text.now }
    ensures digits { Each IsDigit (take result text.now) }
    ensures ends { EndsDigits (drop result text.now) }
{
    for i in 0..text.len() {
        if text[i] < b'0' || text[i] > b'9' {
            return i;
        }
    }
    text.len()
}

// Whether these bytes are a number.
pub(crate) fn is_number(text: &[u8]) -> bool
    ensures { IsTrue result ↔ IsNumber text.now }
{
    if text.is_empty() || text[0] != b'-' {
        return is_unsigned(text);
    }
    is_unsigned(&text[1..])
}

fn is_unsigned(text: &[u8]) -> bool
    ensures { IsTrue result ↔ IsUnsigned text.now }
{
    if !text.is_empty() && text[0] == b'0' {
        return is_fraction(&text[1..]);
    }
    let n = digits_len(text);
    n > 0 && is_fraction(&text[n..])
}

fn is_fraction(text: &[u8]) -> bool
    ensures { IsTrue result ↔ IsFraction text.now }
{
    if text.is_empty() || text[0] != b'.' {
        return is_exponent(text);
    }
    let rest = &text[1..];
    let n = digits_len(rest);
    n > 0 && is_exponent(&rest[n..])
}

fn is_exponent(text: &[u8]) -> bool
    ensures { IsTrue result ↔ IsExp text.now }
{
    if text.is_empty() {
        return true;
    }
    if text[0] != b'e' && text[0] != b'E' {
        return false;
    }
    let rest = &text[1..];
    if rest.is_empty() {
        return false;
    }
    if rest[0] == b'-' {
        return are_digits(&rest[1..]);
    }
    if rest[0] == b'+' {
        return are_digits(&rest[1..]);
    }
    are_digits(rest)
}

fn are_digits(text: &[u8]) -> bool
    ensures { IsTrue result ↔ IsDigits text.now }
{
    !text.is_empty() && digits_len(text) == text.len()
}
