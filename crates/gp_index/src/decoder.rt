// Streams of triangles, read.
ghost use Rattle.std.specs.Prelude.{◌≡◌, ◌<◌, ◌*◌, ◌%◌, ◌⊎◌, length, take, Ok};
ghost use Rattle.gp_groups.specs.Triangles.{at_first, decoded_triangles, edge_at, edge_triangle, free_triangle, has_nibble_15, triangle, triangles};
ghost use Rattle.std.specs.List.{position};
ghost use Rattle.gp_groups.specs.Steps.{beside, filled};
ghost use Rattle.gp_index.specs.Decoding.{as_bytes, cursor_of, kept, state_of};

use crate::cursor::Cursor;
use crate::place::put_triangle;
use crate::pushes::{is_half_new, is_third_new, push_if};
use gp_groups::StreamFault;
use gp_queues::{EdgeQueue, VertexQueue};

// The reading of a triangle stream, and the latest edges and vertices.
#[derive(Drop)]
pub struct Decoder<'a> {
    pub cursor: Cursor<'a>,
    pub edges: EdgeQueue,
    pub vertices: VertexQueue,
}

impl<'a> Decoder<'a> {
    // The triangle of a code.
    pub fn triangle(&mut self, table: &[u8], code: u8) -> Result<(u32, u32, u32), StreamFault>
        requires { length table.now ≡ 16 }
        ensures { kept (state_of self.old) (triangle table.now code (state_of self.old)) ≡ beside result (state_of self.new) }
    {
        match code {
            0..=0xEF => self.edge_triangle(code / 16, code % 16),
            0xF0..=0xFD => {
                let a = self.cursor.next_corner();
                self.free_triangle(a, table[usize::from(code - 0xF0)])
            }
            0xFE => {
                let halves = self.cursor.spelled_halves()?;
                let a = self.cursor.next_corner();
                self.free_triangle(a, halves)
            }
            _ => {
                let halves = self.cursor.spelled_halves()?;
                let a = self.cursor.explicit_corner()?;
                self.free_triangle(a, halves)
            }
        }
    }

    // The triangle that the edge at a place leads.
    fn edge_triangle(&mut self, place: u8, half: u8) -> Result<(u32, u32, u32), StreamFault>
        requires place { place < 16 }
        requires half { half < 16 }
        ensures { kept (state_of self.old) (edge_triangle (edge_at self.old.edges place) self.old.vertices half (cursor_of self.old.cursor)) ≡ beside result (state_of self.new) }
    {
        let (a, b) = self.edges.at(usize::from(place));
        let c = self.cursor.third_corner(&self.vertices, half)?;
        self.edges.push(c, b);
        self.edges.push(a, c);
        push_if(&mut self.vertices, is_third_new(half), c);
        Ok((a, b, c))
    }

    // The triangle that `a` leads, by the halves of the byte ZW.
    fn free_triangle(&mut self, a: u32, halves: u8) -> Result<(u32, u32, u32), StreamFault>
        ensures { kept (state_of self.old) (free_triangle (Ok (a, cursor_of self.old.cursor)) self.old.vertices halves) ≡ beside result (state_of self.new) }
    {
        let b = self.cursor.half_corner(&self.vertices, halves / 16)?;
        let c = self.cursor.half_corner(&self.vertices, halves % 16)?;
        self.edges.push(b, a);
        self.edges.push(c, b);
        self.edges.push(a, c);
        self.vertices.push(a);
        push_if(&mut self.vertices, is_half_new(halves / 16), b);
        push_if(&mut self.vertices, is_half_new(halves % 16), c);
        Ok((a, b, c))
    }
}

// Reads the triangles of these codes into the slice.
fn read_triangles(
    table: &[u8],
    codes: &[u8],
    unread: &[u8],
    stride: usize,
    dest: &mut [u8],
) -> Result<(), StreamFault>
    requires table { length table.now ≡ 16 }
    requires stride { (stride ≡ 2) ⊎ (stride ≡ 4) }
    requires room { length dest.old ≡ 3 * length codes.now * stride }
    ensures { as_bytes stride (triangles stride table.now 0 codes.now (at_first unread.now)) ≡ filled result dest.new }
{
    let mut decoder = Decoder {
        cursor: Cursor {
            next: 0,
            last: 0,
            unread,
        },
        edges: EdgeQueue::new(),
        vertices: VertexQueue::new(),
    };
    'codes: for k in 0..codes.len() {
        let triangle = decoder.triangle(table, codes[k])?;
        put_triangle(triangle, 3 * k, stride, dest)?;
    }
    let left = decoder.cursor.unread.len();
    if left == 0 {
        Ok(())
    } else {
        Err(StreamFault::Tail { left })
    }
}

/// Fills the slice with the `count` indices of a stream, of `stride` bytes each and three to a triangle
/// (EXT_meshopt_compression, mode 1, version 1).
/// `Header`, `Short`, `Table`, `Varint`, `Width` or `Tail` where the stream has no meaning; the slice may hold anything then.
pub fn decode_triangles(
    bytes: &[u8],
    count: usize,
    stride: usize,
    dest: &mut [u8],
) -> Result<(), StreamFault>
    requires triangles { count % 3 ≡ 0 }
    requires stride { (stride ≡ 2) ⊎ (stride ≡ 4) }
    requires room { length dest.old ≡ count * stride }
    ensures { decoded_triangles bytes.now count stride ≡ filled result dest.new }
{
    if bytes.is_empty() || bytes[0] != 0xE1 {
        return Err(StreamFault::Header);
    }
    let behind_codes = 1 + count / 3;
    if bytes.len() < behind_codes + 16 {
        return Err(StreamFault::Short);
    }
    let table_start = bytes.len() - 16;
    let table = &bytes[table_start..];
    if let Some(entry) = bad_entry(table) {
        return Err(StreamFault::Table { entry: entry as u8 });
    }
    read_triangles(
        table,
        &bytes[1..behind_codes],
        &bytes[behind_codes..table_start],
        stride,
        dest,
    )
}

// The first entry of the table, but for the last two, with a nibble 15.
fn bad_entry(table: &[u8]) -> Option<usize>
    requires { length table.now ≡ 16 }
    ensures { result ≡ position has_nibble_15 (take 14 table.now) }
{
    table[..14]
        .iter()
        .position(|entry| *entry / 16 == 15 || *entry % 16 == 15)
}
