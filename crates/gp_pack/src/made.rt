// The views that are made for groups that move, as they are stored.
ghost use Rattle.std.specs.Prelude.{◌≡◌, IfOk, true};
ghost use Rattle.gp_rules.specs.Views.{is_stride_in};
ghost use Rattle.gp_storage.specs.Streams.{MayBeCoded};
ghost use Rattle.gp_pack.specs.MadeParts.{made_part};

use gp_host::{Bytes, NoMemory};
use gp_storage::{Coding, encode};
use std::alloc::Global;

// A view that is made.
#[derive(Drop)]
pub(crate) struct MadePart {
    // How many bytes its contents have.
    pub(crate) length: usize,
    // How it may be coded.
    pub(crate) coding: Coding,
    // Whether it is stored as a stream.
    pub(crate) is_stream: bool,
    // That stream, or else its contents.
    pub(crate) bytes: Bytes,
}

// A view with these contents, which may be coded so: a stream where that has fewer bytes.
pub(crate) fn store_made(
    alloc: Global,
    coding: Coding,
    contents: Vec<u8>,
) -> Result<MadePart, NoMemory>
    requires shape { is_stride_in coding.mode coding.stride ≡ true }
    requires numbers { MayBeCoded contents.items coding }
    ensures { IfOk result (λ part. part ≡ made_part coding contents.items) }
{
    let length = contents.len();
    let stream = encode(alloc, Some(coding), &contents)?;
    let is_stream = stream.is_some();
    let bytes = match stream {
        Some(stream) => stream.bytes,
        None => Bytes::from_vec(contents),
    };
    Ok(MadePart {
        length,
        coding,
        is_stream,
        bytes,
    })
}
