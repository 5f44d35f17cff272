// Streams of triangles, written.
ghost use Rattle.std.specs.Prelude.{◌≡◌, ◌+◌, ◌%◌, ◌==◌, ◌<◌, ◌≤◌, ◌^◌, ◌++◌, length, take, IfOk};
ghost use Rattle.std.specs.List.{All, position};
ghost use Rattle.gp_groups.specs.WrittenTriangles.{behind_edge, codeaux, encoded_triangles, free_code, next_leads, piece, rotated, without_edge};
ghost use Rattle.gp_index.specs.Encoding.{InRange, byte_if, bytes_of, counted, kept_piece, standing_of};
ghost use Rattle.gp_index.specs.SameTriangles.{HasTriangles};

use crate::auxiliary::Auxiliary;
use crate::counters::Counters;
use crate::pushes::{is_half_new, is_third_new, push_if};
use crate::written::{write_first, write_half, write_third};
use gp_host::NoMemory;
use gp_queues::{EdgeQueue, VertexQueue};
use std::alloc::Global;

// The sixteen bytes at the end of a stream, whose first fourteen are the table.
const CODEAUX: [u8; 16] = [
    0x00, 0x76, 0x87, 0x56, 0x67, 0x78, 0xA9, 0x86, 0x65, 0x89, 0x68, 0x98, 0x01, 0x69, 0x00, 0x00,
];

// The writing of a triangle stream: the numbers that a decoder has, and the latest edges and vertices.
#[derive(Drop)]
pub struct Encoder {
    pub counters: Counters,
    pub edges: EdgeQueue,
    pub vertices: VertexQueue,
}

impl Encoder {
    // The code and the auxiliary bytes of a triangle.
    fn piece(&mut self, a: u32, b: u32, c: u32) -> (u8, Auxiliary)
        requires numbers { InRange self.old.counters }
        requires a { a < 2 ^ 24 }
        requires b { b < 2 ^ 24 }
        requires c { c < 2 ^ 24 }
        ensures value { kept_piece (standing_of self.old) (piece (standing_of self.old) (a, b, c)) ≡ ((result.0, bytes_of result.1), standing_of self.new) }
        ensures numbers { InRange self.new.counters }
    {
        if let Some((place, side)) = self.edges.find(a, b, c) {
            let (a, b, c) = turn(a, b, c, side);
            self.behind_edge(place, a, b, c)
        } else {
            let (a, b, c) = lead_with_next(self.counters.next, a, b, c);
            self.without_edge(a, b, c)
        }
    }

    // The triangle of the edge at a place and c.
    fn behind_edge(&mut self, place: usize, a: u32, b: u32, c: u32) -> (u8, Auxiliary)
        requires place { place < 15 }
        requires numbers { InRange self.old.counters }
        requires c { c < 2 ^ 24 }
        ensures value { kept_piece (standing_of self.old) (behind_edge self.old.vertices (counted self.old.counters) place (a, b, c)) ≡ ((result.0, bytes_of result.1), standing_of self.new) }
        ensures numbers { InRange self.new.counters }
    {
        let third = write_third(&self.vertices, c, self.counters);
        self.edges.push(c, b);
        self.edges.push(a, c);
        push_if(&mut self.vertices, is_third_new(third.half), c);
        self.counters = third.counters;
        let auxiliary = Auxiliary {
            halves: None,
            first: None,
            second: None,
            third: third.explicit,
        };
        (16 * place as u8 + third.half, auxiliary)
    }

    // The triangle that `a` leads.
    fn without_edge(&mut self, a: u32, b: u32, c: u32) -> (u8, Auxiliary)
        requires numbers { InRange self.old.counters }
        requires a { a < 2 ^ 24 }
        requires b { b < 2 ^ 24 }
        requires c { c < 2 ^ 24 }
        ensures value { kept_piece (standing_of self.old) (without_edge self.old.vertices (counted self.old.counters) (a, b, c)) ≡ ((result.0, bytes_of result.1), standing_of self.new) }
        ensures numbers { InRange self.new.counters }
    {
        let is_next = a == self.counters.next;
        let first = write_first(is_next, a, self.counters);
        let second = write_half(&self.vertices, b, first.counters);
        let third = write_half(&self.vertices, c, second.counters);
        let (code, halves) = free_code(is_next, 16 * second.half + third.half);
        self.edges.push(b, a);
        self.edges.push(c, b);
        self.edges.push(a, c);
        self.vertices.push(a);
        push_if(&mut self.vertices, is_half_new(second.half), b);
        push_if(&mut self.vertices, is_half_new(third.half), c);
        self.counters = third.counters;
        let auxiliary = Auxiliary {
            halves,
            first: first.explicit,
            second: second.explicit,
            third: third.explicit,
        };
        (code, auxiliary)
    }
}

// The triangle that begins at one of its corners.
fn turn(a: u32, b: u32, c: u32, corner: usize) -> (u32, u32, u32)
    ensures { result ≡ rotated (a, b, c) corner }
{
    match corner {
        0 => (a, b, c),
        1 => (b, c, a),
        _ => (c, a, b),
    }
}

// The triangle that begins at its first corner that is `next`, if there is one.
fn lead_with_next(next: u32, a: u32, b: u32, c: u32) -> (u32, u32, u32)
    ensures { result ≡ next_leads next (a, b, c) }
{
    if a == next {
        (a, b, c)
    } else if b == next {
        (b, c, a)
    } else if c == next {
        (c, a, b)
    } else {
        (a, b, c)
    }
}

// The code of a triangle without an edge, and the byte ZW, where it is an auxiliary one.
fn free_code(is_next: bool, halves: u8) -> (u8, Option<u8>)
    ensures { (result.0, byte_if result.1) ≡ free_code is_next halves }
{
    if !is_next {
        return (0xFF, Some(halves));
    }
    match table_entry(halves) {
        Some(entry) => (0xF0 + entry as u8, None),
        None => (0xFE, Some(halves)),
    }
}

// The first entry of the table that is this byte.
fn table_entry(halves: u8) -> Option<usize>
    ensures { result ≡ position (λ entry. entry == halves) (take 14 codeaux) }
{
    CODEAUX[..14].iter().position(|entry| *entry == halves)
}

/// The stream of a list of indices below 2^24, three to a triangle (EXT_meshopt_compression, mode 1, version 1).
/// It means the same triangles in the same order, each from its corner 0, 1 or 2 on, in four bytes an index, and in two where each
/// index is at most 65535.
pub fn encode_triangles(alloc: Global, indices: &[u32]) -> Result<Vec<u8>, NoMemory>
    requires triangles { length indices.now % 3 ≡ 0 }
    requires range { All (λ index. index < 2 ^ 24) indices.now }
    ensures value { IfOk result (λ bytes. bytes.items ≡ encoded_triangles indices.now) }
    ensures in_four_bytes { IfOk result (λ bytes. HasTriangles bytes.items indices.now 4) }
    ensures in_two_bytes { All (λ index. index ≤ 65535) indices.now → IfOk result (λ bytes. HasTriangles bytes.items indices.now 2) }
{
    let mut encoder = Encoder {
        counters: Counters { next: 0, last: 0 },
        edges: EdgeQueue::new(),
        vertices: VertexQueue::new(),
    };
    let mut bytes = Vec::with_capacity(alloc, 17 + indices.len() / 3)?;
    let mut behind = Vec::new(alloc);
    bytes.push(0xE1)?;
    'triangles: for k in 0..indices.len() / 3 {
        let (code, auxiliary) = encoder.piece(
            indices[3 * k],
            indices[3 * k + 1],
            indices[3 * k + 2],
        );
        bytes.push(code)?;
        auxiliary.append_to(&mut behind)?;
    }
    behind.extend_from_slice(&CODEAUX)?;
    bytes.extend_from_slice(&behind)?;
    Ok(bytes)
}
