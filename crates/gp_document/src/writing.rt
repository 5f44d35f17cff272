// Documents as containers.
ghost use Rattle.std.specs.Prelude.{◌≡◌, ◌^◌, nat_lt, length, option_map};
ghost use Rattle.gp_tree.specs.Plain.{plain};
ghost use Rattle.gp_glb.specs.Container.{AreWholeChunks, glb_len};
ghost use Rattle.gp_document.specs.Writing.{made_of, Writes};

use crate::output::Output;
use gp_asset::Refusal;
use gp_glb::{join, total};
use gp_host::Bytes;
use gp_json::print;
use gp_tree::Tree;
use std::alloc::Global;

// From this length on a part alone is too large for a container.
const TOO_LARGE: usize = 1 << 32;

/// Writes a tree, the bytes of its buffer and other chunks as a container, with the JSON in compact text.
/// `OutputTooLarge` where it would have 2^32 bytes or more. Want of memory is the one other answer.
pub fn write_document(
    alloc: Global,
    tree: Tree,
    bin: Option<&[u8]>,
    rest: &[u8],
    views: u32,
    streams: u32,
) -> Result<Output, Refusal>
    requires rest { AreWholeChunks rest.now }
    ensures { Writes (made_of (plain tree) (option_map (λ b. b.now) bin.entry) rest.now views streams) result }
{
    let text = print(alloc, &tree)?;
    // The tree is many times its text: it goes before the output is made.
    drop(tree);
    if !fits(&text, bin, rest) {
        return Err(Refusal::OutputTooLarge);
    }
    let glb = join(alloc, &text, bin, rest)?;
    Ok(Output {
        glb: Bytes::from_vec(glb),
        views,
        packed: streams,
    })
}

// Whether the container of a JSON text, a BIN chunk and other chunks has less than 2^32 bytes.
fn fits(json: &[u8], bin: Option<&[u8]>, rest: &[u8]) -> bool
    ensures { result ≡ nat_lt (glb_len (length json.now) (option_map (λ b. length b.now) bin.entry) (length rest.now)) (2 ^ 32) }
{
    if json.len() >= TOO_LARGE || rest.len() >= TOO_LARGE {
        return false;
    }
    match bin {
        None => total(json.len() as u64, None, rest.len() as u64).is_some(),
        Some(bin) => {
            bin.len() < TOO_LARGE
                && total(json.len() as u64, Some(bin.len() as u64), rest.len() as u64).is_some()
        }
    }
}
