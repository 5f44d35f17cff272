// The words of the command line where there is a folder.
ghost use Rattle.std.specs.Prelude.{◌≡◌, map, string_bytes, IfSome};
ghost use Rattle.std.specs.List.{list_all};
ghost use Rattle.gp_app.specs.WideWords.{is_stem_byte, is_stem, folder_command, wide_command, HasNames};

use crate::commands::Wide;
use crate::words::command;

/// The command of these words, the program's name left out, or none: `bundle` and the name of a file; `pair`, the name of a
/// file and a stem of 1 to 64 letters, digits, `_` or `-` of ASCII; or a command without a folder. No name is empty.
#[tactic(auto, unfolding(crate::specs::WideWords::wide_command))]
pub fn wide_command(words: &[String]) -> Option<Wide>
    ensures value { result ≡ wide_command (map string_bytes words.now) }
    ensures names { IfSome result (HasNames words.now) }
{
    match folder_command(words) {
        Some(asked) => Some(asked),
        None => command(words).map(Wide::Plain),
    }
}

/// The command of these words that takes a file of the folder, or none.
fn folder_command(words: &[String]) -> Option<Wide>
    ensures value { result ≡ folder_command (map string_bytes words.now) }
    ensures names { IfSome result (HasNames words.now) }
{
    match words {
        [name, file] if name.as_str() == "bundle" && !file.is_empty() => Some(Wide::Bundle),
        [name, file, stem]
            if name.as_str() == "pair" && !file.is_empty() && is_stem(stem.as_bytes()) => {
            Some(Wide::Pair)
        }
        _ => None,
    }
}

/// Whether these are 1 to 64 letters or digits of ASCII, `_` or `-`.
fn is_stem(stem: &[u8]) -> bool
    ensures { result ≡ is_stem stem.now }
{
    !stem.is_empty() && stem.len() <= 64 && are_stem_bytes(stem)
}

fn are_stem_bytes(bytes: &[u8]) -> bool
    ensures { result ≡ list_all is_stem_byte bytes.now }
{
    bytes.iter().all(|byte| is_stem_byte(*byte))
}

fn is_stem_byte(byte: u8) -> bool
    ensures { result ≡ is_stem_byte byte }
{
    matches!(byte, b'0'..=b'9' | b'A'..=b'Z' | b'a'..=b'z' | b'_' | b'-')
}
