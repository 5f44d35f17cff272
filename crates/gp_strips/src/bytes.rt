// The bytes of lists of triangles.
ghost use Rattle.std.specs.Prelude.{◌≡◌, ◌++◌, OnOk};
ghost use Rattle.gp_groups.specs.Sequence.{le_bytes};
ghost use Rattle.gp_strips.specs.ListedDocument.{list_bytes};

use gp_host::NoMemory;

/// Puts the corners of a list behind bytes, each in four bytes, the lowest first.
pub(crate) fn push_list(bytes: &mut Vec<u8>, corners: &[u32]) -> Result<(), NoMemory>
    ensures { OnOk result (bytes.new.items ≡ bytes.old.items ++ list_bytes corners.now) }
{
    'corners: for at in 0..corners.len() {
        push_number(bytes, corners[at])?;
    }
    Ok(())
}

// Puts a number in four bytes behind bytes.
fn push_number(bytes: &mut Vec<u8>, number: u32) -> Result<(), NoMemory>
    ensures { OnOk result (bytes.new.items ≡ bytes.old.items ++ le_bytes 4 number) }
{
    bytes.push((number % 256) as u8)?;
    bytes.push((number / 256 % 256) as u8)?;
    bytes.push((number / 256 / 256 % 256) as u8)?;
    bytes.push((number / 256 / 256 / 256 % 256) as u8)?;
    Ok(())
}
