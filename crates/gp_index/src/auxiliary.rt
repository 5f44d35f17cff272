// The auxiliary bytes of a triangle that is written.
ghost use Rattle.std.specs.Prelude.{◌≡◌, ◌++◌, OnOk};
ghost use Rattle.gp_index.specs.Encoding.{bytes_of, spelled_if};

use gp_host::NoMemory;
use gp_sequence::append_varint;

// The byte ZW and the values of the corners' varints, where there are any.
#[derive(Clone, Copy)]
pub struct Auxiliary {
    pub halves: Option<u8>,
    pub first: Option<u32>,
    pub second: Option<u32>,
    pub third: Option<u32>,
}

impl Auxiliary {
    // Appends the bytes.
    pub fn append_to(self, out: &mut Vec<u8>) -> Result<(), NoMemory>
        ensures { OnOk result (out.new.items ≡ out.old.items ++ bytes_of self) }
    {
        if let Some(halves) = self.halves {
            out.push(halves)?;
        }
        append_if(out, self.first)?;
        append_if(out, self.second)?;
        append_if(out, self.third)
    }
}

// Appends the varint of a value, where there is one.
fn append_if(out: &mut Vec<u8>, value: Option<u32>) -> Result<(), NoMemory>
    ensures { OnOk result (out.new.items ≡ out.old.items ++ spelled_if value) }
{
    if let Some(value) = value {
        append_varint(out, value)?;
    }
    Ok(())
}
