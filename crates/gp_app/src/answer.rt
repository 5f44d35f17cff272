// From the source to what is to be written.
ghost use Rattle.std.specs.Prelude.{◌≡◌, ◌≤◌, ◌+◌, ◌^◌, length, None, Some, IfOk, IfErr};
ghost use Rattle.gp_app.specs.Work.{HasSize, Refuses, Makes};
ghost use Rattle.gp_app.specs.Answer.{Answers, told_line, made_by, IsRefusalOf};
ghost use Rattle.gp_app.specs.Lines.{done_line, listed_line};
ghost use Rattle.gp_app.specs.Taken.{TakesInput};

use crate::commands::Command;
use crate::lines::{PACKED, UNPACKED, done_line, listed_line};
use arrayvec::ArrayVec;
use gp_analyse::analyse;
use gp_asset::Refusal;
use gp_document::Output;
use gp_host::{Bytes, NoMemory, ReadRefusal, Source, read_all};
use gp_meshlets::meshlets;
use gp_pack::pack;
use gp_sample::sample_glb;
use gp_strips::{ListsOut, lists};
use gp_unpack::unpack;
use std::alloc::Global;

/// The greatest length of an input.
const MOST: usize = 1 << 29;

/// What is to be written, and the line of a run that is done, where it has one.
#[derive(Drop)]
pub(crate) struct Answer {
    pub(crate) out: Bytes,
    pub(crate) line: Option<ArrayVec<u8, 96>>,
}

/// Why nothing is to be written.
#[derive(Clone, Copy, Debug, PartialEq, Eq)]
pub(crate) enum Stop {
    InputFailed,
    TooLarge,
    Faulty(Refusal),
    NoMemory,
}

/// Takes the whole input of a command and works on it.
pub(crate) fn answer_to<S: Source>(
    alloc: Global,
    asked: Command,
    input: &mut S,
) -> Result<Answer, Stop>
    requires { HasSize asked }
    ensures answers { Answers asked (S.state input.old) (S.state input.new) result }
    ensures turns { (S.state input.new).calls ≤ (S.state input.old).calls + 2 ^ 29 + 1 }
    ensures later { (S.state input.old).faults ≤ (S.state input.new).faults }
{
    let bytes = match take_input(alloc, asked, input) {
        Ok(bytes) => bytes,
        Err(stop) => return Err(stop),
    };
    match work(alloc, asked, &bytes) {
        Ok(answer) => Ok(answer),
        Err(Refusal::Memory) => Err(Stop::NoMemory),
        Err(refusal) => Err(Stop::Faulty(refusal)),
    }
}

/// Takes the whole input of a command: all that the source has left, or its own sample.
fn take_input<S: Source>(alloc: Global, asked: Command, input: &mut S) -> Result<Vec<u8>, Stop>
    requires { HasSize asked }
    ensures takes { TakesInput asked (S.state input.old) (S.state input.new) result }
    ensures fits { IfOk result (λ bytes. length bytes.items ≤ 2 ^ 29) }
    ensures turns { (S.state input.new).calls ≤ (S.state input.old).calls + 2 ^ 29 + 1 }
    ensures later { (S.state input.old).faults ≤ (S.state input.new).faults }
{
    match asked {
        Command::Sample(size) => match sample_glb(alloc, size) {
            Ok(bytes) => Ok(bytes),
            Err(NoMemory) => Err(Stop::NoMemory),
        },
        Command::Pack | Command::Unpack | Command::Analyse | Command::Lists | Command::Meshlets => {
            match read_all(alloc, input, MOST) {
                Ok(bytes) => Ok(bytes),
                Err(ReadRefusal::Failed) => Err(Stop::InputFailed),
                Err(ReadRefusal::TooLarge) => Err(Stop::TooLarge),
                Err(ReadRefusal::Memory) => Err(Stop::NoMemory),
            }
        }
    }
}

/// Makes the output of an input, and its line.
#[tactic(auto, unfolding(crate::specs::Work::Makes, crate::specs::Work::Refuses))]
fn work(alloc: Global, asked: Command, bytes: &[u8]) -> Result<Answer, Refusal>
    ensures makes { IfOk result (λ answer. Makes asked bytes.now (made_by answer)) }
    ensures refused { IfErr result (IsRefusalOf asked bytes.now) }
{
    match asked {
        Command::Pack | Command::Sample(_) => {
            let out = pack(alloc, bytes)?;
            Ok(answer_with(PACKED, out, bytes.len() as u64))
        }
        Command::Unpack => {
            let out = unpack(alloc, bytes)?;
            Ok(answer_with(UNPACKED, out, bytes.len() as u64))
        }
        Command::Analyse => Ok(text_alone(analyse(alloc, bytes)?)),
        Command::Lists => Ok(listed_answer(lists(alloc, bytes)?, bytes.len())),
        Command::Meshlets => Ok(text_alone(meshlets(alloc, bytes)?)),
    }
}

/// The output, and the line of Done that begins with these words.
pub(crate) fn answer_with(words: &[u8], out: Output, taken: u64) -> Answer
    requires { length words.now ≤ 20 }
    ensures out { result.out ≡ out.glb }
    ensures line { told_line result ≡ Some (done_line words.now out taken (length out.glb)) }
{
    let written = out.glb.as_slice().len() as u64;
    Answer {
        line: Some(done_line(words, &out, taken, written)),
        out: out.glb,
    }
}

/// The output of lists, and its line of Done.
fn listed_answer(out: ListsOut, taken: usize) -> Answer
    ensures out { result.out ≡ out.glb }
    ensures line { told_line result ≡ Some (listed_line out taken) }
{
    Answer {
        line: Some(listed_line(&out, taken)),
        out: out.glb,
    }
}

/// A text, and no line.
fn text_alone(text: Bytes) -> Answer
    ensures out { result.out ≡ text }
    ensures line { told_line result ≡ None }
{
    Answer {
        out: text,
        line: None,
    }
}
