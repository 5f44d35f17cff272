// The commands over bytes in memory.
ghost use Rattle.std.specs.Prelude.{◌≡◌, [], ◌∷◌, map, string_bytes, IfOk};
ghost use Rattle.gp_app.specs.declared.commands.Command.TheVariants.{Analyse, Pack, Unpack};
ghost use Rattle.gp_library_c.specs.Ends.{Answers, EndsWith};
ghost use Rattle.gp_library_c.specs.Places.{place};
ghost use Rattle.gp_library_c.specs.InMemory.{command_of, word_of};

use crate::places::hand_out;
use crate::sink::Kept;
use crate::source::Given;
use gp_app::{Status, WANT_OF_MEMORY, run};
use gp_host::NoMemory;
use std::alloc::Global;

/// A command that reads a file.
#[derive(Clone, Copy, Debug, PartialEq, Eq)]
pub(crate) enum Task {
    Pack,
    Unpack,
    Analyse,
}

/// How a command ended, its output, and the report's line.
#[derive(Drop)]
struct Ended {
    status: Status,
    out: Vec<u8>,
    line: Vec<u8>,
}

/// Packs a file, as the program's `pack`: the output and the line are put at the front of their rooms where they fit, and their
/// lengths are told. The answer is the program's exit code: 0, 1, or 4 for want of memory.
#[unsafe(no_mangle)]
pub extern "C" fn gp_library_c_pack(
    alloc: Global,
    bytes: &[u8],
    room: &mut [u8],
    size: &mut usize,
    line: &mut [u8],
    line_size: &mut usize,
) -> u32
    ensures { Answers Pack bytes.now result (place room.old size.old) (place room.new size.new) (place line.old line_size.old) (place line.new line_size.new) }
{
    answer(alloc, Task::Pack, bytes, room, size, line, line_size)
}

/// Unpacks a file, as the program's `unpack`; else as `gp_library_c_pack`.
#[unsafe(no_mangle)]
pub extern "C" fn gp_library_c_unpack(
    alloc: Global,
    bytes: &[u8],
    room: &mut [u8],
    size: &mut usize,
    line: &mut [u8],
    line_size: &mut usize,
) -> u32
    ensures { Answers Unpack bytes.now result (place room.old size.old) (place room.new size.new) (place line.old line_size.old) (place line.new line_size.new) }
{
    answer(alloc, Task::Unpack, bytes, room, size, line, line_size)
}

/// Analyses a file, as the program's `analyse`, whose output is a text, and which has no line where it is done; else as
/// `gp_library_c_pack`.
#[unsafe(no_mangle)]
pub extern "C" fn gp_library_c_analyse(
    alloc: Global,
    bytes: &[u8],
    room: &mut [u8],
    size: &mut usize,
    line: &mut [u8],
    line_size: &mut usize,
) -> u32
    ensures { Answers Analyse bytes.now result (place room.old size.old) (place room.new size.new) (place line.old line_size.old) (place line.new line_size.new) }
{
    answer(alloc, Task::Analyse, bytes, room, size, line, line_size)
}

/// Does a command, and hands out what it made and told.
fn answer(
    alloc: Global,
    task: Task,
    bytes: &[u8],
    room: &mut [u8],
    size: &mut usize,
    line: &mut [u8],
    line_size: &mut usize,
) -> u32
    ensures { Answers (command_of task) bytes.now result (place room.old size.old) (place room.new size.new) (place line.old line_size.old) (place line.new line_size.new) }
{
    match end_of(alloc, task, bytes) {
        Ok(ended) => {
            let _told = hand_out(&ended.line, line, line_size);
            let _fits = hand_out(&ended.out, room, size);
            u32::from(ended.status.code())
        }
        Err(NoMemory) => {
            let _told = hand_out(WANT_OF_MEMORY, line, line_size);
            let _fits = hand_out(&[], room, size);
            u32::from(Status::Memory.code())
        }
    }
}

/// Runs the program's call over the bytes. Where a sink found no memory, so does this.
fn end_of(alloc: Global, task: Task, bytes: &[u8]) -> Result<Ended, NoMemory>
    ensures { IfOk result (λ ended. EndsWith (command_of task) bytes.now ended.status ended.out.items ended.line.items) }
{
    let words = words_of(alloc, task)?;
    let mut input = Given { left: bytes };
    let mut output = Kept::new(alloc);
    let mut report = Kept::new(alloc);
    let status = run(alloc, &words, &mut input, &mut output, &mut report);
    if output.faults > 0 || report.faults > 0 {
        return Err(NoMemory);
    }
    Ok(Ended {
        status,
        out: output.bytes,
        line: report.bytes,
    })
}

/// The word that asks for the command.
fn words_of(alloc: Global, task: Task) -> Result<Vec<String>, NoMemory>
    ensures { IfOk result (λ words. map string_bytes words.items ≡ word_of task ∷ []) }
{
    let word = match task {
        Task::Pack => "pack",
        Task::Unpack => "unpack",
        Task::Analyse => "analyse",
    };
    Ok(vec![in alloc; word.to_string(alloc)?]?)
}
