// Parts in a row.
ghost use Rattle.std.specs.Prelude.{◌≡◌, ◌<◌, ◌^◌, ℕ, List, option_map, IfOk, OnOk};
ghost use Rattle.gp_layout.specs.Row.{row_of, laid_buffer, buffer_length, with_part, zero_padded, HasEach, held, row_length};

use gp_asset::ViewBytes;
use gp_host::NoMemory;
use std::alloc::Global;
use std::marker::Model;

/// Parts in a row, each at the next multiple of 4, with zeros in the gaps.
#[derive(Drop)]
pub struct Row {
    bytes: Vec<u8>,
    starts: Vec<usize>,
}

impl Model for Row {
    ghost use Rattle.gp_layout.specs.Row.{RowParts};

    ghost Value = { RowParts };

    ghost view = { λ row. record { bytes = row.bytes.items; starts = row.starts.items } };
}

/// The bytes of these views in a row: `count` of them, each of which has bytes.
pub fn lay<V: ViewBytes>(alloc: Global, views: &V, count: usize) -> Result<Row, NoMemory>
    requires { HasEach (V.views views.now) count }
    ensures { IfOk result (λ row. row ≡ row_of (held (V.views views.now))) }
{
    let mut row = Row {
        bytes: Vec::with_capacity(alloc, room(views, count))?,
        starts: Vec::with_capacity(alloc, count)?,
    };
    'views: for at in 0..count {
        row.append(views.view(at))?;
    }
    Ok(row)
}

// How many bytes the row of these views has, where a number can say it.
fn room<V: ViewBytes>(views: &V, count: usize) -> usize
    requires { HasEach (V.views views.now) count }
    ensures { row_length (V.views views.now) < 2 ^ 64 → result ≡ row_length (V.views views.now) }
{
    let mut room: usize = 0;
    'lengths: for at in 0..count {
        let start = (room.saturating_add(3) / 4).saturating_mul(4);
        room = start.saturating_add(views.view(at).len());
    }
    room
}

impl Row {
    /// The bytes, up to the end of the last part.
    pub fn bytes(&self) -> &[u8]
        ensures { result.now ≡ self.now.bytes }
    {
        self.bytes.as_slice()
    }

    /// Where each part begins.
    pub fn starts(&self) -> &[usize]
        ensures { result.now ≡ self.now.starts }
    {
        self.starts.as_slice()
    }

    /// The bytes of the one buffer that the row makes; none where it has no parts.
    #[tactic(auto, unfolding(crate::specs::Row::laid_buffer))]
    pub fn buffer(&self) -> Option<&[u8]>
        ensures { (parts : List (List ℕ)) → self.now ≡ row_of parts → option_map (λ b. b.now) result ≡ laid_buffer parts }
    {
        if self.starts().is_empty() {
            return None;
        }
        Some(self.bytes())
    }

    /// How many bytes that buffer has.
    #[tactic(auto, unfolding(crate::specs::Row::buffer_length))]
    pub fn buffer_length(&self) -> Option<u64>
        ensures { (parts : List (List ℕ)) → self.now ≡ row_of parts → result ≡ buffer_length parts }
    {
        if self.starts().is_empty() {
            return None;
        }
        Some(self.bytes().len() as u64)
    }

    // Puts a part behind the others.
    fn append(&mut self, part: &[u8]) -> Result<(), NoMemory>
        ensures { OnOk result (self.new ≡ with_part self.old part.now) }
    {
        pad(&mut self.bytes)?;
        self.starts.push(self.bytes.len())?;
        self.bytes.extend_from_slice(part)?;
        Ok(())
    }
}

// Puts zeros behind bytes, up to the next multiple of 4.
fn pad(bytes: &mut Vec<u8>) -> Result<(), NoMemory>
    ensures { OnOk result (bytes.new.items ≡ zero_padded bytes.old.items) }
{
    let past = bytes.len() % 4;
    if past > 0 {
        bytes.resize(bytes.len() + (4 - past), 0)?;
    }
    Ok(())
}
