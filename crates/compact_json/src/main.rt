//! An example of a crate of this project by itself: the program reads a JSON text from its input and writes its compact text, with
//! every number and every string spelled as it was.
//!
//! It ends with 0 where it is done, with 1 where the input is no JSON text or longer than 64 MiB, with 3 where a stream failed, and
//! with 4 for want of memory. Then it says so on standard error, and has written nothing unless the output failed.
#![tactic(auto)]

mod compacting;

use crate::compacting::compact;
use gp_host::{ReadRefusal, StdSink, StdSource, read_all, write_all};
use gp_json::JsonRefusal;
use std::process::ExitCode;

/// The longest input, in bytes.
const MOST: usize = 1 << 26;

/// How a run ends: its exit code, and what it says on standard error.
#[derive(Clone, Copy)]
struct Ending {
    code: u8,
    line: &'static [u8],
}

const DONE: Ending = Ending { code: 0, line: b"" };

const NO_JSON: Ending = Ending {
    code: 1,
    line: b"the input is no JSON text\n",
};

const TOO_LONG: Ending = Ending {
    code: 1,
    line: b"the input is longer than 64 MiB\n",
};

const INPUT_FAILED: Ending = Ending {
    code: 3,
    line: b"the input failed\n",
};

const OUTPUT_FAILED: Ending = Ending {
    code: 3,
    line: b"the output failed\n",
};

const NO_MEMORY: Ending = Ending {
    code: 4,
    line: b"want of memory\n",
};

fn main(rt: HostRuntime) -> ExitCode {
    let ending = run(&rt);
    let _told = write_all(&mut StdSink::new(rt.stderr()), ending.line);
    ExitCode::from(ending.code)
}

fn run(rt: &HostRuntime) -> Ending {
    let alloc = rt.alloc();
    let text = match read_all(alloc, &mut StdSource::new(rt.stdin()), MOST) {
        Ok(text) => text,
        Err(ReadRefusal::TooLarge) => return TOO_LONG,
        Err(ReadRefusal::Memory) => return NO_MEMORY,
        Err(ReadRefusal::Failed) => return INPUT_FAILED,
    };
    match compact(alloc, &text) {
        Ok(compacted) => match write_all(&mut StdSink::new(rt.stdout()), &compacted) {
            Ok(()) => DONE,
            Err(_) => OUTPUT_FAILED,
        },
        Err(JsonRefusal::Fault(_)) => NO_JSON,
        Err(JsonRefusal::Memory) => NO_MEMORY,
    }
}
