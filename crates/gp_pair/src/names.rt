// The names of files that URIs spell (glTF 2.0, section 3.6.1.1; RFC 3986, section 2.1).
ghost use Rattle.std.specs.Prelude.{◌≡◌, IfOk, option_map};
ghost use Rattle.std.specs.List.{list_all, list_any, slice_split};
ghost use Rattle.gp_pair.specs.Names.{is_slash, is_name_byte, leads_out, is_safe, name_of, front_of};
ghost use Rattle.std.specs.Prelude.{string_bytes};

use gp_host::NoMemory;
use percent_encoding::percent_decode;
use std::alloc::Global;

/// The name of a file that a URI spells, with each escape decoded once. `None` of a data URI and of a name that isn't safe.
#[tactic(auto, unfolding(crate::specs::Names::name_of))]
pub(crate) fn name_of(alloc: Global, uri: &[u8]) -> Result<Option<String>, NoMemory>
    ensures { IfOk result (λ name. option_map string_bytes name ≡ name_of uri.now) }
{
    if uri.starts_with(b"data:") {
        return Ok(None);
    }
    let mut name = Vec::new(alloc);
    percent_decode(uri).append_to(&mut name)?;
    if !is_safe(&name) {
        return Ok(None);
    }
    match String::from_utf8(name) {
        Ok(name) => Ok(Some(name)),
        Err(_) => unreachable!(),
    }
}

// Whether a name is there, of printable ASCII without `:` and `\`, and stays in its folder.
fn is_safe(name: &[u8]) -> bool
    ensures { result ≡ is_safe name.now }
{
    !name.is_empty() & are_name_bytes(name) & !name.starts_with(b"/") & !leads_out(name)
}

fn are_name_bytes(name: &[u8]) -> bool
    ensures { result ≡ list_all is_name_byte name.now }
{
    name.iter().all(|byte| is_name_byte(*byte))
}

fn is_name_byte(byte: u8) -> bool
    ensures { result ≡ is_name_byte byte }
{
    byte > 31 && byte < 127 && byte != b':' && byte != b'\\'
}

// Whether a piece between slashes leads to the folder above.
fn leads_out(name: &[u8]) -> bool
    ensures { result ≡ list_any leads_out (slice_split is_slash name.now) }
{
    name.split(|byte| *byte == b'/')
        .any(|piece| is_parent(piece))
}

fn is_parent(piece: &[u8]) -> bool
    ensures { result ≡ leads_out piece.now }
{
    piece == b"..".as_slice()
}

/// A name up to and with its last slash.
pub(crate) fn front_of(name: &str) -> &str
    ensures { result.now ≡ front_of name.now }
{
    match name.rfind('/') {
        Some(at) => &name[..at + 1],
        None => "",
    }
}
