// Corners, read one after another.
ghost use Rattle.std.specs.Prelude.{◌≡◌, ◌<◌, Ok};
ghost use Rattle.gp_groups.specs.Steps.{beside};
ghost use Rattle.gp_groups.specs.Triangles.{explicit_corner, half_corner, moved_corner, next_corner, spelled_halves, third_corner};
ghost use Rattle.gp_index.specs.Decoding.{cursor_of};

use gp_groups::StreamFault;
use gp_queues::VertexQueue;
use gp_sequence::{read_varint, unzigzag32};

// The numbers `next` and `last`, and the auxiliary bytes to come.
#[derive(Drop)]
pub struct Cursor<'a> {
    pub next: u32,
    pub last: u32,
    pub unread: &'a [u8],
}

impl<'a> Cursor<'a> {
    // `next`, which grows.
    pub fn next_corner(&mut self) -> u32
        ensures { next_corner (cursor_of self.old) ≡ Ok (result, cursor_of self.new) }
    {
        let corner = self.next;
        self.next = corner.wrapping_add(1);
        corner
    }

    // `last` with a difference, which becomes `last`.
    pub fn moved_corner(&mut self, by: u32) -> u32
        ensures { moved_corner by (cursor_of self.old) ≡ Ok (result, cursor_of self.new) }
    {
        let corner = self.last.wrapping_add(by);
        self.last = corner;
        corner
    }

    // The corner that a varint tells.
    pub fn explicit_corner(&mut self) -> Result<u32, StreamFault>
        ensures { explicit_corner (cursor_of self.old) ≡ beside result (cursor_of self.new) }
    {
        let (coded, size) = read_varint(self.unread)?;
        self.unread = &self.unread[size..];
        Ok(self.moved_corner(unzigzag32(coded)))
    }

    // The third corner behind an edge, by the low half of the code.
    pub fn third_corner(&mut self, vertices: &VertexQueue, half: u8) -> Result<u32, StreamFault>
        requires { half < 16 }
        ensures { third_corner vertices.now half (cursor_of self.old) ≡ beside result (cursor_of self.new) }
    {
        match half {
            0 => Ok(self.next_corner()),
            13 => Ok(self.moved_corner(u32::MAX)),
            14 => Ok(self.moved_corner(1)),
            15 => self.explicit_corner(),
            _ => Ok(vertices.at(usize::from(half))),
        }
    }

    // The second or third corner where no edge leads, by a half of the byte ZW.
    pub fn half_corner(&mut self, vertices: &VertexQueue, half: u8) -> Result<u32, StreamFault>
        requires { half < 16 }
        ensures { half_corner vertices.now half (cursor_of self.old) ≡ beside result (cursor_of self.new) }
    {
        match half {
            0 => Ok(self.next_corner()),
            15 => self.explicit_corner(),
            _ => Ok(vertices.at(usize::from(half - 1))),
        }
    }

    // The byte ZW; 0 sets `next` to 0.
    pub fn spelled_halves(&mut self) -> Result<u8, StreamFault>
        ensures { spelled_halves (cursor_of self.old) ≡ beside result (cursor_of self.new) }
    {
        if self.unread.is_empty() {
            return Err(StreamFault::Short);
        }
        let halves = self.unread[0];
        self.unread = &self.unread[1..];
        if halves == 0 {
            self.next = 0;
        }
        Ok(halves)
    }
}
