// The numbers that bytes are.
ghost use Rattle.std.specs.Prelude.{◌≡◌, ◌⊎◌, length, IfOk};
ghost use Rattle.gp_elements.specs.Elements.{number_of};
ghost use Rattle.gp_storage.specs.Coding.{numbers_in};

use byteorder::{ByteOrder, LittleEndian};
use gp_host::NoMemory;
use std::alloc::Global;

/// The number in two or four bytes, the lowest first.
pub(crate) fn number(bytes: &[u8]) -> u32
    requires { (length bytes.now ≡ 2) ⊎ (length bytes.now ≡ 4) }
    ensures { result ≡ number_of bytes.now }
{
    match bytes.len() {
        2 => LittleEndian::read_u16(bytes) as u32,
        _ => LittleEndian::read_u32(bytes),
    }
}

/// All numbers of so many bytes, in a row.
pub(crate) fn numbers(alloc: Global, bytes: &[u8], width: usize) -> Result<Vec<u32>, NoMemory>
    requires { (width ≡ 2) ⊎ (width ≡ 4) }
    ensures { IfOk result (λ v. v.items ≡ numbers_in width bytes.now) }
{
    let mut list = Vec::with_capacity(alloc, bytes.len() / width)?;
    'rows: for at in 0..bytes.len() / width {
        list.push(number(&bytes[at * width..at * width + width]))?;
    }
    Ok(list)
}
