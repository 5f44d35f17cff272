// The files of external buffers (glTF 2.0, section 3.6.1).
ghost use Rattle.std.specs.Prelude.{◌≡◌, ◌++◌, IfOk, map, option_map, option_and_then, string_bytes};
ghost use Rattle.gp_tree.specs.Plain.{plain};
ghost use Rattle.gp_tree.specs.Look.{item};
ghost use Rattle.gp_pair.specs.External.{external_name, file_in, files_of};

use crate::names::{front_of, name_of};
use gp_host::NoMemory;
use gp_tree::Tree;
use std::alloc::Global;

/// For each item of the list `buffers` of a root that stands in the file with this name, the file of the buffer, where it
/// is external.
pub(crate) fn files_of(
    alloc: Global,
    name: &str,
    root: &Tree,
) -> Result<Vec<Option<String>>, NoMemory>
    ensures { IfOk result (λ v. map (λ o. option_map string_bytes o) v.items ≡ files_of name.now (plain root.now)) }
{
    let Some(buffers) = root.find("buffers") else {
        return Ok(Vec::new(alloc));
    };
    let mut files = Vec::new(alloc);
    let front = front_of(name);
    'buffers: for at in 0..buffers.len() {
        let file = file_at(alloc, front, buffers, at)?;
        files.push(file)?;
    }
    Ok(files)
}

// The file of the buffer at this place, where it is external.
fn file_at(
    alloc: Global,
    front: &str,
    buffers: &Tree,
    at: usize,
) -> Result<Option<String>, NoMemory>
    ensures { IfOk result (λ o. option_map string_bytes o ≡ option_and_then (file_in front.now) (item (plain buffers.now) at)) }
{
    match buffers.item(at) {
        Some(buffer) => file_in(alloc, front, buffer),
        None => Ok(None),
    }
}

// The file of a buffer where it is external, with this front before its name.
fn file_in(alloc: Global, front: &str, buffer: &Tree) -> Result<Option<String>, NoMemory>
    ensures { IfOk result (λ o. option_map string_bytes o ≡ file_in front.now (plain buffer.now)) }
{
    let Some(name) = external_name(alloc, buffer)? else {
        return Ok(None);
    };
    let mut file = String::from_str(alloc, front)?;
    file.push_str(&name)?;
    Ok(Some(file))
}

// The name that the `uri` of a buffer spells.
#[tactic(auto, unfolding(crate::specs::External::external_name))]
fn external_name(alloc: Global, buffer: &Tree) -> Result<Option<String>, NoMemory>
    ensures { IfOk result (λ o. option_map string_bytes o ≡ external_name (plain buffer.now)) }
{
    let Some(uri) = buffer.find("uri") else {
        return Ok(None);
    };
    match uri.ascii(alloc)? {
        Some(uri) => name_of(alloc, &uri),
        None => Ok(None),
    }
}
