// Files of a folder, taken one after the other.
ghost use Rattle.std.specs.Prelude.{◌≡◌, ◌≤◌, ◌<◌, ◌^◌, Some, IfSome, length, map, option_map, slice_get, string_bytes};
ghost use Rattle.gp_pair.specs.Taking.{content_len};
ghost use Rattle.gp_pair.specs.Answers.{Asks, TakesOne, Takes};

use crate::BundleRefusal;
use crate::refusal::refusal_of_take;
use gp_folder::Folder;
use gp_host::Bytes;
use std::alloc::Global;

/// The content of each buffer that is external, and how many bytes they have in all.
#[derive(Drop)]
pub(crate) struct Contents {
    pub(crate) contents: Vec<Option<Bytes>>,
    pub(crate) count: usize,
}

/// Takes these files by rising number, those of buffers that are external, where they have at most `limit` bytes in all.
/// A number that four bytes don't hold is of a tree past all memory.
pub(crate) fn take_files<F: Folder>(
    alloc: Global,
    folder: &mut F,
    names: &[Option<String>],
    limit: usize,
) -> Result<Contents, BundleRefusal>
    requires limit { limit ≤ 2 ^ 29 }
    ensures answers { Takes (F.state folder.old).files (map (λ o. option_map string_bytes o) names.now) limit result }
    ensures asks { Asks (F.state folder.old) (F.state folder.new) result }
{
    let mut contents = Vec::new(alloc);
    let mut count = 0;
    'files: for at in 0..names.len() {
        let Some(number) = number_of(at) else {
            return Err(BundleRefusal::Memory);
        };
        let name = name_at(names, at);
        let content = match take_file(alloc, folder, name, number, limit - count) {
            Ok(content) => content,
            Err(refusal) => return Err(refusal),
        };
        count += content_len(&content);
        if contents.push(content).is_err() {
            return Err(BundleRefusal::Memory);
        }
    }
    Ok(Contents { contents, count })
}

// The number of a buffer.
fn number_of(at: usize) -> Option<u32>
    ensures { IfSome result (λ number. number ≡ at) }
{
    u32::try_from(at).ok()
}

// The file of a buffer, where it is external.
fn name_at(names: &[Option<String>], at: usize) -> Option<&str>
    requires { at < length names.now }
    ensures { slice_get (map (λ o. option_map string_bytes o) names.now) at ≡ Some (option_map (λ b. b.now) result) }
{
    match &names[at] {
        Some(name) => Some(name.as_str()),
        None => None,
    }
}

// How many bytes a content has.
fn content_len(content: &Option<Bytes>) -> usize
    ensures { result ≡ content_len content.now }
{
    match content {
        Some(bytes) => bytes.as_slice().len(),
        None => 0,
    }
}

// Takes the file of a buffer, where it is external.
fn take_file<F: Folder>(
    alloc: Global,
    folder: &mut F,
    name: Option<&str>,
    at: u32,
    limit: usize,
) -> Result<Option<Bytes>, BundleRefusal>
    requires { limit ≤ 2 ^ 29 }
    ensures answers { TakesOne (F.state folder.old).files (option_map (λ b. b.now) name.entry) at limit result }
    ensures asks { Asks (F.state folder.old) (F.state folder.new) result }
{
    let Some(name) = name else {
        return Ok(None);
    };
    match folder.take(alloc, name, limit) {
        Ok(bytes) => Ok(Some(bytes)),
        Err(refusal) => Err(refusal_of_take(Some(at), refusal)),
    }
}
