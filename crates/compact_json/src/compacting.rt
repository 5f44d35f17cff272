// The compact text of a JSON text.
ghost use Rattle.std.specs.Prelude.{◌≡◌, ◌⊎◌, IfOk, MatchResult, Err};
ghost use Rattle.gp_json.specs.Fault.{HasFault};
ghost use Rattle.compact_json.specs.Compact.{IsCompactOf};

use gp_host::NoMemory;
use gp_json::{JsonFault, JsonRefusal, print, read};
use std::alloc::Global;

/// The compact text of a JSON text (RFC 8259): the same tree, each number, string and key as it is spelled, with no white space between
/// them. A text with a fault is refused for its first one; want of memory is the one other answer.
pub fn compact(alloc: Global, text: &[u8]) -> Result<Vec<u8>, JsonRefusal>
    ensures compacted { IfOk result (λ v. IsCompactOf text.now v.items) }
    ensures fault { (f : JsonFault) → result ≡ Err (JsonRefusal.Fault f) → HasFault text.now f }
    ensures told { (f : JsonFault) → HasFault text.now f
        → MatchResult result (λ _. ⊥) (λ r. (r ≡ JsonRefusal.Fault f) ⊎ (r ≡ JsonRefusal.Memory)) }
{
    let tree = read(alloc, text)?;
    match print(alloc, &tree) {
        Ok(compacted) => Ok(compacted),
        Err(NoMemory) => Err(JsonRefusal::Memory),
    }
}
