// Numbers of items, as an asset holds them.
ghost use Rattle.std.specs.Prelude.{◌≡◌, ◌<◌, ◌≤◌, ◌^◌, IfOk, OnErr};

use gp_host::NoMemory;

/// The number of the item at this place. A list with more than 2^32 items is want of memory.
pub(crate) fn number_of(place: usize) -> Result<u32, NoMemory>
    ensures ok { IfOk result (λ number. number ≡ place) }
    ensures err { OnErr result (2 ^ 32 ≤ place) }
{
    u32::try_from(place).map_err(|_| NoMemory)
}
