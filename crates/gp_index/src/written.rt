// Corners as they are written.
ghost use Rattle.std.specs.Prelude.{◌≡◌, ◌+◌, ◌<◌, ◌^◌, true, if◌then◌else◌};
ghost use Rattle.gp_groups.specs.WrittenTriangles.{as_explicit, as_moved, as_next, as_queued, written_half, written_third};
ghost use Rattle.gp_index.specs.Encoding.{InRange, corner_of, counted};

use crate::counters::Counters;
use gp_queues::VertexQueue;
use gp_sequence::zigzag_difference;

// The half of a byte that tells a corner, the value of its varint, if it has one, and the numbers behind it.
#[derive(Clone, Copy)]
pub struct Written {
    pub half: u8,
    pub explicit: Option<u32>,
    pub counters: Counters,
}

// The first corner where no edge leads: `next`, or any other vertex.
pub fn write_first(is_next: bool, a: u32, at: Counters) -> Written
    requires numbers { InRange at }
    requires vertex { a < 2 ^ 24 }
    requires next { is_next ≡ true → at.next < 2 ^ 24 }
    ensures value { corner_of result ≡ (if is_next then as_next (counted at) else as_explicit a (counted at)) }
    ensures half { result.half < 16 }
    ensures numbers { InRange result.counters }
{
    if is_next {
        write_next(at)
    } else {
        write_explicit(a, at)
    }
}

// The second or third corner where no edge leads.
pub fn write_half(vertices: &VertexQueue, vertex: u32, at: Counters) -> Written
    requires numbers { InRange at }
    requires vertex { vertex < 2 ^ 24 }
    ensures value { corner_of result ≡ written_half vertices.now vertex (counted at) }
    ensures half { result.half < 16 }
    ensures numbers { InRange result.counters }
{
    if let Some(place) = vertices.find(vertex, 0, 14) {
        write_queued(place as u8 + 1, at)
    } else if vertex == at.next {
        write_next(at)
    } else {
        write_explicit(vertex, at)
    }
}

// The third corner behind an edge.
pub fn write_third(vertices: &VertexQueue, vertex: u32, at: Counters) -> Written
    requires numbers { InRange at }
    requires vertex { vertex < 2 ^ 24 }
    ensures value { corner_of result ≡ written_third vertices.now vertex (counted at) }
    ensures half { result.half < 16 }
    ensures numbers { InRange result.counters }
{
    if let Some(place) = vertices.find(vertex, 1, 13) {
        write_queued(place as u8, at)
    } else if vertex == at.next {
        write_next(at)
    } else if vertex + 1 == at.last {
        write_moved(13, vertex, at)
    } else if vertex == at.last + 1 {
        write_moved(14, vertex, at)
    } else {
        write_explicit(vertex, at)
    }
}

// The corner is `next`, which grows.
fn write_next(at: Counters) -> Written
    requires { at.next < 2 ^ 24 }
    ensures value { corner_of result ≡ as_next (counted at) }
    ensures half { result.half ≡ 0 }
    ensures counters { result.counters ≡ record { next = at.next + 1; last = at.last } }
{
    Written {
        half: 0,
        explicit: None,
        counters: Counters {
            next: at.next + 1,
            last: at.last,
        },
    }
}

// The corner stands in the queue.
fn write_queued(half: u8, at: Counters) -> Written
    ensures value { corner_of result ≡ as_queued half (counted at) }
    ensures half { result.half ≡ half }
    ensures counters { result.counters ≡ at }
{
    Written {
        half,
        explicit: None,
        counters: at,
    }
}

// The corner is beside `last`, which it becomes.
fn write_moved(half: u8, vertex: u32, at: Counters) -> Written
    ensures value { corner_of result ≡ as_moved half vertex (counted at) }
    ensures half { result.half ≡ half }
    ensures counters { result.counters ≡ record { next = at.next; last = vertex } }
{
    Written {
        half,
        explicit: None,
        counters: Counters {
            next: at.next,
            last: vertex,
        },
    }
}

// The corner is told by a varint, and becomes `last`.
fn write_explicit(vertex: u32, at: Counters) -> Written
    requires last { at.last < 2 ^ 24 }
    requires vertex { vertex < 2 ^ 24 }
    ensures value { corner_of result ≡ as_explicit vertex (counted at) }
    ensures half { result.half ≡ 15 }
    ensures counters { result.counters ≡ record { next = at.next; last = vertex } }
{
    Written {
        half: 15,
        explicit: Some(zigzag_difference(at.last, vertex)),
        counters: Counters {
            next: at.next,
            last: vertex,
        },
    }
}
