// The queue of edges.
ghost use Rattle.std.specs.Prelude.{◌≡◌, ℕ, ◌-◌, ◌^◌, ◌<◌, List, replicate, slice_get, Some};
ghost use Rattle.gp_groups.specs.WrittenTriangles.{leading_edge};
ghost use Rattle.gp_queues.specs.Queue.{from_newest, leading_corner, pushed};

use std::marker::Model;

/// The sixteen latest edges, newest first (EXT_meshopt_compression, mode 1). Each goes from its first vertex to its second.
#[derive(Drop)]
pub struct EdgeQueue {
    slots: [(u32, u32); 16],
    newest: usize,
}

impl Model for EdgeQueue {
    ghost Value = { List (ℕ × ℕ) };

    ghost view = { λ q. from_newest q.newest q.slots };

    ghost invariant = { λ q. q.newest < 16 };
}

impl EdgeQueue {
    /// A queue to which nothing was pushed: (2^32-1, 2^32-1) stands at all places.
    pub fn new() -> Self
        ensures { result ≡ replicate 16 (2 ^ 32 - 1, 2 ^ 32 - 1) }
    {
        EdgeQueue {
            slots: [(u32::MAX, u32::MAX); 16],
            newest: 0,
        }
    }

    /// Puts the edge at place 0, and drops the one at place 15.
    pub fn push(&mut self, first: u32, second: u32)
        ensures { self.new ≡ pushed (first, second) self.old }
    {
        self.newest = (self.newest + 15) % 16;
        self.slots[self.newest] = (first, second);
    }

    /// The edge at a place below 16, of which 0 is the newest.
    pub fn at(&self, place: usize) -> (u32, u32)
        requires { place < 16 }
        ensures { slice_get self.now place ≡ Some result }
    {
        self.slots[(self.newest + place) % 16]
    }

    /// The least place below 15 whose edge is a side of the triangle, and the number of the first such side
    /// in the order (a, b), (b, c), (c, a). `None` where there is none: an edge the other way round is no side.
    pub fn find(&self, a: u32, b: u32, c: u32) -> Option<(usize, usize)>
        ensures { result ≡ leading_edge self.now (a, b, c) }
    {
        'places: for place in 0..15 {
            let (first, second) = self.at(place);
            if let Some(side) = side_number(first, second, a, b, c) {
                return Some((place, side));
            }
        }
        None
    }
}

// The number of the first side of the triangle that is the edge.
fn side_number(first: u32, second: u32, a: u32, b: u32, c: u32) -> Option<usize>
    ensures { result ≡ leading_corner (first, second) (a, b, c) }
{
    if first == a && second == b {
        Some(0)
    } else if first == b && second == c {
        Some(1)
    } else if first == c && second == a {
        Some(2)
    } else {
        None
    }
}
