// The queue of vertices.
ghost use Rattle.std.specs.Prelude.{◌≡◌, ℕ, ◌-◌, ◌^◌, ◌<◌, ◌≤◌, List, replicate, slice_get, Some};
ghost use Rattle.gp_groups.specs.WrittenTriangles.{vertex_place};
ghost use Rattle.gp_queues.specs.Queue.{from_newest, pushed};

use std::marker::Model;

/// The sixteen latest vertices, newest first (EXT_meshopt_compression, mode 1).
#[derive(Drop)]
pub struct VertexQueue {
    slots: [u32; 16],
    newest: usize,
}

impl Model for VertexQueue {
    ghost Value = { List ℕ };

    ghost view = { λ q. from_newest q.newest q.slots };

    ghost invariant = { λ q. q.newest < 16 };
}

impl VertexQueue {
    /// A queue to which nothing was pushed: 2^32-1 stands at all places.
    pub fn new() -> Self
        ensures { result ≡ replicate 16 (2 ^ 32 - 1) }
    {
        VertexQueue {
            slots: [u32::MAX; 16],
            newest: 0,
        }
    }

    /// Puts the vertex at place 0, and drops the one at place 15.
    pub fn push(&mut self, vertex: u32)
        ensures { self.new ≡ pushed vertex self.old }
    {
        self.newest = (self.newest + 15) % 16;
        self.slots[self.newest] = vertex;
    }

    /// The vertex at a place below 16, of which 0 is the newest.
    pub fn at(&self, place: usize) -> u32
        requires { place < 16 }
        ensures { slice_get self.now place ≡ Some result }
    {
        self.slots[(self.newest + place) % 16]
    }

    /// The least place in `from..past` that holds the vertex. `None` where there is none.
    pub fn find(&self, vertex: u32, from: usize, past: usize) -> Option<usize>
        requires order { from ≤ past }
        requires within { past ≤ 16 }
        ensures { result ≡ vertex_place self.now from (past - from) vertex }
    {
        'places: for place in from..past {
            if self.at(place) == vertex {
                return Some(place);
            }
        }
        None
    }
}
