// The top call, where there is a folder.
ghost use Rattle.std.specs.Prelude.{◌≡◌, ◌≤◌, ◌+◌, ◌^◌, map, string_bytes};
ghost use Rattle.gp_host.specs.Source.{SourceAt};
ghost use Rattle.gp_host.specs.Sink.{SinkAt};
ghost use Rattle.gp_app.specs.WideMoment.{wide_moment, WideLater};
ghost use Rattle.gp_app.specs.WideEnds.{WideEnds, WideCompletes, BundleEnds, PairEnds, TakingCompletes};
ghost use Rattle.gp_app.specs.BundleAnswer.{status_of};
ghost use Rattle.gp_app.specs.Lines.{line_of_bundle};
ghost use Rattle.gp_app.specs.Written.{Says};

use crate::Status;
use crate::answer::answer_with;
use crate::bundling::packed_bundle;
use crate::commands::Wide;
use crate::deliver::{deliver, tell_line};
use crate::lines::{FOLDER_FAILED, PACKED, WANT_OF_MEMORY, bundle_line, done_line};
use crate::running::run;
use crate::say::say;
use crate::wide_words::wide_command;
use gp_folder::{Folder, PutRefusal};
use gp_host::{Sink, Source};
use gp_pair::{BundleRefusal, put_pair};
use std::alloc::Global;

/// Does what the words ask for, as [`run`] does, or takes a file of the folder with the files of its buffers, packs what they
/// are joined to, and writes this to the output or puts it into the folder as a pair of files; and tells on the report how it ended.
pub fn run_in<F: Folder, S: Source, K: Sink, R: Sink>(
    alloc: Global,
    words: &[String],
    folder: &mut F,
    input: &mut S,
    output: &mut K,
    report: &mut R,
) -> Status
    // How it ends, by its status, and when it must be done.
    ensures ends { WideEnds (map string_bytes words.now)
        (wide_moment (F.state folder.old) (S.state input.old) (K.state output.old) (R.state report.old))
        (wide_moment (F.state folder.new) (S.state input.new) (K.state output.new) (R.state report.new)) result }
    ensures complete { WideCompletes (map string_bytes words.now)
        (wide_moment (F.state folder.old) (S.state input.old) (K.state output.old) (R.state report.old))
        (wide_moment (F.state folder.new) (S.state input.new) (K.state output.new) (R.state report.new)) result }

    ensures later { WideLater
        (wide_moment (F.state folder.old) (S.state input.old) (K.state output.old) (R.state report.old))
        (wide_moment (F.state folder.new) (S.state input.new) (K.state output.new) (R.state report.new)) }
    ensures turns { (S.state input.new).calls ≤ (S.state input.old).calls + 2 ^ 29 + 1 }
{
    match wide_command(words) {
        Some(Wide::Bundle) => do_bundle(alloc, &words[1], folder, output, report),
        Some(Wide::Pair) => do_pair(alloc, &words[1], &words[2], folder, report),
        Some(Wide::Plain(_)) | None => run(alloc, words, input, output, report),
    }
}

/// Packs a file with the files of its buffers, and writes this to the output.
fn do_bundle<F: Folder, K: Sink, R: Sink>(
    alloc: Global,
    name: &str,
    folder: &mut F,
    output: &mut K,
    report: &mut R,
) -> Status
    ensures ends { (input : SourceAt) → BundleEnds name.now
        (wide_moment (F.state folder.old) input (K.state output.old) (R.state report.old))
        (wide_moment (F.state folder.new) input (K.state output.new) (R.state report.new)) result }
    ensures complete { (input : SourceAt) → TakingCompletes name.now
        (wide_moment (F.state folder.old) input (K.state output.old) (R.state report.old))
        (wide_moment (F.state folder.new) input (K.state output.new) (R.state report.new)) result }
    ensures later_folder { (F.state folder.old).faults ≤ (F.state folder.new).faults }
    ensures later_output { (K.state output.old).faults ≤ (K.state output.new).faults }
    ensures later_report { (R.state report.old).faults ≤ (R.state report.new).faults }
{
    match packed_bundle(alloc, folder, name) {
        Ok(packed) => {
            let answer = answer_with(PACKED, packed.out, packed.taken);
            deliver(&answer, output, report)
        }
        Err(refusal) => refuse(&refusal, report),
    }
}

/// Packs a file with the files of its buffers, and puts this as a pair of files.
fn do_pair<F: Folder, R: Sink>(
    alloc: Global,
    name: &str,
    stem: &str,
    folder: &mut F,
    report: &mut R,
) -> Status
    ensures ends { (input : SourceAt) (output : SinkAt) → PairEnds name.now stem.now
        (wide_moment (F.state folder.old) input output (R.state report.old))
        (wide_moment (F.state folder.new) input output (R.state report.new)) result }
    ensures complete { (input : SourceAt) (output : SinkAt) → TakingCompletes name.now
        (wide_moment (F.state folder.old) input output (R.state report.old))
        (wide_moment (F.state folder.new) input output (R.state report.new)) result }
    ensures later_folder { (F.state folder.old).faults ≤ (F.state folder.new).faults }
    ensures later_report { (R.state report.old).faults ≤ (R.state report.new).faults }
{
    let packed = match packed_bundle(alloc, folder, name) {
        Ok(packed) => packed,
        Err(refusal) => return refuse(&refusal, report),
    };
    match put_pair(alloc, folder, stem, packed.out.glb.as_slice()) {
        Ok(count) => tell_line(
            done_line(PACKED, &packed.out, packed.taken, count).as_slice(),
            report,
        ),
        Err(PutRefusal::Failed) => {
            say(report, FOLDER_FAILED);
            Status::Outside
        }
        Err(PutRefusal::Memory) => {
            say(report, WANT_OF_MEMORY);
            Status::Memory
        }
    }
}

/// Tells why a file isn't bundled and packed.
fn refuse<R: Sink>(refusal: &BundleRefusal, report: &mut R) -> Status
    ensures told { Says (R.state report.old) (R.state report.new) (line_of_bundle refusal.now) }
    ensures status { result ≡ status_of refusal.now }
{
    say(report, bundle_line(refusal).as_slice());
    match refusal {
        BundleRefusal::Failed => Status::Outside,
        BundleRefusal::Memory => Status::Memory,
        _ => Status::Refused,
    }
}
