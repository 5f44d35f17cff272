// The JSON and the BIN chunk of a container, however long its JSON is (glTF 2.0, GLB file format).
ghost use Rattle.std.specs.Prelude.{◌≡◌, ◌==◌, ℕ, ◌+◌, ◌≤◌, List, Option, length, option_map};
ghost use Rattle.gp_glb.specs.Bytes.{word_at};
ghost use Rattle.gp_glb.specs.Container.{Container, StandsFor, bin_kind};
ghost use Rattle.gp_pair.specs.Answers.{HasJson, HasBin};

use crate::text::is_text;
use byteorder::{ByteOrder, LittleEndian};

// The type of a BIN chunk: `BIN` with a zero byte.
const BIN: u32 = 0x004E_4942;

/// The bytes of the JSON chunk, or of the whole text, and those of the BIN chunk, where there is one.
#[derive(Clone, Copy)]
pub(crate) struct JsonAndBin<'a> {
    pub(crate) json: &'a [u8],
    pub(crate) bin: Option<&'a [u8]>,
}

// The number in the four bytes from a place.
fn word_at(bytes: &[u8], at: usize) -> u32
    requires { at + 4 ≤ length bytes.now }
    ensures { result ≡ word_at bytes.now at }
{
    LittleEndian::read_u32(&bytes[at..])
}

/// Both parts of bytes that stand for a container.
pub(crate) fn json_and_bin(bytes: &[u8]) -> JsonAndBin<'_>
    requires { (parts : Container) × StandsFor bytes.now parts }
    ensures json { (parts : Container) → StandsFor bytes.now parts → result.json.now ≡ parts.json }
    ensures bin { (parts : Container) → StandsFor bytes.now parts → option_map (λ b. b.now) result.bin ≡ parts.bin }
{
    if is_text(bytes) {
        return JsonAndBin {
            json: bytes,
            bin: None,
        };
    }
    split_body(&bytes[12..word_at(bytes, 8) as usize])
}

// Both parts of what is behind the header.
fn split_body(body: &[u8]) -> JsonAndBin<'_>
    requires { (json : List ℕ) × (bin : Option (List ℕ)) × HasJson body.now json bin }
    ensures json { (json : List ℕ) (bin : Option (List ℕ)) → HasJson body.now json bin → result.json.now ≡ json }
    ensures bin { (json : List ℕ) (bin : Option (List ℕ)) → HasJson body.now json bin → option_map (λ b. b.now) result.bin ≡ bin }
{
    let end = 8 + word_at(body, 0) as usize;
    JsonAndBin {
        json: &body[8..end],
        bin: bin_in(&body[end..]),
    }
}

// The BIN chunk, where it is in front of the chunks behind the JSON.
fn bin_in(chunks: &[u8]) -> Option<&[u8]>
    requires { (bin : Option (List ℕ)) × HasBin chunks.now bin }
    ensures { (bin : Option (List ℕ)) → HasBin chunks.now bin → option_map (λ b. b.now) result ≡ bin }
{
    if chunks.is_empty() {
        return None;
    }
    if !is_bin(word_at(chunks, 4)) {
        return None;
    }
    let end = 8 + word_at(chunks, 0) as usize;
    Some(&chunks[8..end])
}

fn is_bin(kind: u32) -> bool
    ensures { result ≡ (kind == bin_kind) }
{
    kind == BIN
}
