// Words and numbers of a text.
ghost use Rattle.std.specs.Prelude.{◌≡◌, ◌++◌, OnOk, decimal};

use gp_host::NoMemory;
use itoa::Buffer;

/// Appends words.
pub(crate) fn put(text: &mut Vec<u8>, words: &[u8]) -> Result<(), NoMemory>
    ensures { OnOk result (text.new.items ≡ text.old.items ++ words.now) }
{
    text.extend_from_slice(words)?;
    Ok(())
}

/// Appends words, and behind them the decimal digits of a number.
pub(crate) fn put_number(text: &mut Vec<u8>, words: &[u8], number: u64) -> Result<(), NoMemory>
    ensures { OnOk result (text.new.items ≡ text.old.items ++ words.now ++ decimal number) }
{
    let mut buffer = Buffer::new();
    put(text, words)?;
    put(text, buffer.format(number).as_bytes())
}
