// The top call.
ghost use Rattle.std.specs.Prelude.{◌≤◌, ◌+◌, ◌^◌, map, string_bytes};
ghost use Rattle.gp_app.specs.Moment.{moment, Later};
ghost use Rattle.gp_app.specs.Work.{HasSize};
ghost use Rattle.gp_app.specs.Ends.{Ends, Completes, CommandEnds};
ghost use Rattle.gp_app.specs.Headline.{Headline, KeepsAsset, KeepsContents, TellsText};

use crate::Status;
use crate::answer::{Stop, answer_to};
use crate::commands::Command;
use crate::deliver::deliver;
use crate::lines::{INPUT_FAILED, TOO_LARGE, USAGE, WANT_OF_MEMORY, refusal_line};
use crate::say::say;
use crate::words::command;
use gp_host::{Sink, Source};
use std::alloc::Global;

/// Does what the words ask for: reads the input, writes the output, and tells on the report how it ended. An analysis that
/// is done has no line there, so a report that fails never ends it.
pub fn run<S: Source, K: Sink, R: Sink>(
    alloc: Global,
    words: &[String],
    input: &mut S,
    output: &mut K,
    report: &mut R,
) -> Status
    // How it ends, by its status.
    ensures ends { Ends (map string_bytes words.now)
        (moment (S.state input.old) (K.state output.old) (R.state report.old))
        (moment (S.state input.new) (K.state output.new) (R.state report.new)) result }
    ensures complete { Completes (map string_bytes words.now)
        (moment (S.state input.old) (K.state output.old) (R.state report.old))
        (moment (S.state input.new) (K.state output.new) (R.state report.new)) result }

    // What packing and unpacking keep, and the texts that are written.
    ensures keeps { KeepsAsset (map string_bytes words.now)
        (moment (S.state input.old) (K.state output.old) (R.state report.old))
        (moment (S.state input.new) (K.state output.new) (R.state report.new)) result }
    ensures unpacks { KeepsContents (map string_bytes words.now)
        (moment (S.state input.old) (K.state output.old) (R.state report.old))
        (moment (S.state input.new) (K.state output.new) (R.state report.new)) result }
    ensures texts { TellsText (map string_bytes words.now)
        (moment (S.state input.old) (K.state output.old) (R.state report.old))
        (moment (S.state input.new) (K.state output.new) (R.state report.new)) result }
    ensures headline { Headline (map string_bytes words.now)
        (moment (S.state input.old) (K.state output.old) (R.state report.old))
        (moment (S.state input.new) (K.state output.new) (R.state report.new)) result }

    ensures later { Later
        (moment (S.state input.old) (K.state output.old) (R.state report.old))
        (moment (S.state input.new) (K.state output.new) (R.state report.new)) }
    ensures turns { (S.state input.new).calls ≤ (S.state input.old).calls + 2 ^ 29 + 1 }
{
    do_words(alloc, words, input, output, report)
}

/// Does the command of the words, or tells how the program is used.
fn do_words<S: Source, K: Sink, R: Sink>(
    alloc: Global,
    words: &[String],
    input: &mut S,
    output: &mut K,
    report: &mut R,
) -> Status
    ensures ends { Ends (map string_bytes words.now)
        (moment (S.state input.old) (K.state output.old) (R.state report.old))
        (moment (S.state input.new) (K.state output.new) (R.state report.new)) result }
    ensures later { Later
        (moment (S.state input.old) (K.state output.old) (R.state report.old))
        (moment (S.state input.new) (K.state output.new) (R.state report.new)) }
    ensures turns { (S.state input.new).calls ≤ (S.state input.old).calls + 2 ^ 29 + 1 }
{
    match command(words) {
        Some(asked) => carry_out(alloc, asked, input, output, report),
        None => {
            say(report, USAGE);
            Status::Usage
        }
    }
}

/// Does a command.
fn carry_out<S: Source, K: Sink, R: Sink>(
    alloc: Global,
    asked: Command,
    input: &mut S,
    output: &mut K,
    report: &mut R,
) -> Status
    requires { HasSize asked }
    ensures ends { CommandEnds asked
        (moment (S.state input.old) (K.state output.old) (R.state report.old))
        (moment (S.state input.new) (K.state output.new) (R.state report.new)) result }
    ensures later { Later
        (moment (S.state input.old) (K.state output.old) (R.state report.old))
        (moment (S.state input.new) (K.state output.new) (R.state report.new)) }
    ensures turns { (S.state input.new).calls ≤ (S.state input.old).calls + 2 ^ 29 + 1 }
{
    match answer_to(alloc, asked, input) {
        Ok(answer) => deliver(&answer, output, report),
        Err(Stop::InputFailed) => {
            say(report, INPUT_FAILED);
            Status::Outside
        }
        Err(Stop::TooLarge) => {
            say(report, TOO_LARGE);
            Status::Refused
        }
        Err(Stop::Faulty(refusal)) => {
            say(report, refusal_line(&refusal).as_slice());
            Status::Refused
        }
        Err(Stop::NoMemory) => {
            say(report, WANT_OF_MEMORY);
            Status::Memory
        }
    }
}
