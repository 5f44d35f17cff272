// Small files of one buffer.
use super::has_every;
use crate::{Group, groups, survivors};
use gp_asset::{Form, Refusal, read_asset};
use gp_host::NoMemory;
use gp_json::read;
use std::alloc::Global;

// A file of one buffer of 84 bytes, with three views: two of six vertices, and one of lists and of what a `sparse` gives.
const BEGIN: &str =
    r#"{"buffers":[{"byteLength":84}],"bufferViews":[{"buffer":0,"byteLength":24},{"buffer":0,"byteOffset":24,"byteLength":24},{"buffer":0,"byteOffset":48,"byteLength":36}],"accessors":["#;

// Its bytes: six elements of accessor 0, and six of accessor 1; lists 0 to 5, 0 1 6, 0 1 5, 0 1 255, 0 1 254, and of two
// bytes each 255 1 0; the index 5 and then 6; values.
const BYTES: [u8; 84] = [
    10, 0, 0, 0, 11, 0, 0, 0, 12, 0, 0, 0, 10, 0, 0, 0, 12, 0, 0, 0, 13, 0, 0, 0, 1, 0, 0, 0, 1, 0,
    0, 0, 1, 0, 0, 0, 2, 0, 0, 0, 1, 0, 0, 0, 1, 0, 0, 0, 0, 1, 2, 3, 4, 5, 0, 1, 6, 0, 1, 5, 0, 1,
    255, 0, 1, 254, 255, 0, 1, 0, 0, 0, 5, 6, 0, 0, 1, 2, 3, 4, 5, 6, 7, 8,
];

// Accessors over these views.
pub(super) const COLUMN: &str = r#"{"bufferView":0,"componentType":5121,"count":6,"type":"VEC4"}"#;

pub(super) const OTHER: &str = r#"{"bufferView":1,"componentType":5121,"count":6,"type":"VEC4"}"#;

pub(super) const LIST: &str = r#"{"bufferView":2,"componentType":5121,"count":6,"type":"SCALAR"}"#;
// The last vertex by a `sparse`, and one past the last.
pub(super) const PATCHED: &str =
    r#"{"bufferView":1,"componentType":5121,"count":6,"type":"VEC4","sparse":{"count":1,"indices":{"bufferView":2,"byteOffset":24,"componentType":5121},"values":{"bufferView":2,"byteOffset":28}}}"#;

pub(super) const UNKNOWN: &str =
    r#"{"bufferView":1,"componentType":5121,"count":6,"type":"VEC4","sparse":{"count":1,"indices":{"bufferView":2,"byteOffset":25,"componentType":5121},"values":{"bufferView":2,"byteOffset":28}}}"#;
// 300 vertices without a view.
pub(super) const MANY: &str =
    r#"{"componentType":5121,"count":300,"type":"SCALAR","sparse":{"count":1,"indices":{"bufferView":2,"byteOffset":24,"componentType":5121},"values":{"bufferView":2,"byteOffset":28}}}"#;

// The text of a file with these accessors, and what follows them.
fn text_of(alloc: Global, accessors: &[&str], rest: &str) -> Result<Vec<u8>, NoMemory> {
    let mut text = Vec::from_slice(alloc, BEGIN.as_bytes())?;
    for at in 0..accessors.len() {
        if 0 < at {
            text.push(b',')?;
        }
        text.extend_from_slice(accessors[at].as_bytes())?;
    }
    text.extend_from_slice(b"],")?;
    text.extend_from_slice(rest.as_bytes())?;
    text.push(b'}')?;
    Ok(text)
}

// The groups of that file, and the new numbers of its views.
pub(super) fn found_in(
    alloc: Global,
    accessors: &[&str],
    rest: &str,
) -> Result<(Vec<Group>, Vec<Option<u32>>), Refusal> {
    let text = match text_of(alloc, accessors, rest) {
        Ok(text) => text,
        Err(_) => return Err(Refusal::Memory),
    };
    let tree = match read(alloc, text.as_slice()) {
        Ok(tree) => tree,
        Err(refusal) => return Err(Refusal::from(refusal)),
    };
    let asset = match read_asset(alloc, &tree, Some(&BYTES), Form::Plain) {
        Ok(asset) => asset,
        Err(refusal) => return Err(Refusal::from(refusal)),
    };
    if !has_every(&asset) {
        return Err(Refusal::Memory);
    }
    let groups = match groups(alloc, &asset, &asset) {
        Ok(groups) => groups,
        Err(_) => return Err(Refusal::Memory),
    };
    let numbers = match survivors(alloc, &asset, &groups) {
        Ok(numbers) => numbers,
        Err(_) => return Err(Refusal::Memory),
    };
    Ok((groups.into_vec(), numbers))
}
