// A list cut into meshlets.
ghost use Rattle.std.specs.Prelude.{◌≡◌, ◌%◌, ◌==◌, length};
ghost use Rattle.gp_meshlets_c.specs.Answers.{Counted};

use gp_host::NoMemory;
use gp_meshlets::build;
use std::alloc::Global;

/// The call is done.
pub const DONE: u32 = 0;

/// The length is none that the call takes.
pub const NO_SHAPE: u32 = 1;

/// There is no memory.
pub const NO_MEMORY: u32 = 2;

/// Tells how many meshlets a list of triangles has, as `gp_meshlets::build`, which makes them all. The answer is 0 where the call is
/// done, 1 where the corners aren't whole triangles, and 2 for want of memory; after 1 and 2 the count is as it was.
#[unsafe(no_mangle)]
pub extern "C" fn gp_meshlets_c_count(alloc: Global, list: &[u32], count: &mut u64) -> u32
    ensures { Counted (length list.now % 3 == 0) list.now result count.old count.new }
{
    if list.len() % 3 != 0 {
        return NO_SHAPE;
    }
    match build(alloc, list) {
        Ok(built) => {
            *count = built.as_slice().len() as u64;
            DONE
        }
        Err(NoMemory) => NO_MEMORY,
    }
}
