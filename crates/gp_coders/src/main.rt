//! Codes one stream, for comparisons with other coders and for measurements: bytes on the standard input, the coded or
//! decoded bytes on the standard output, the fault of a stream on the standard error.
//!
//! The words are `copy`, or a kind of stream (`attributes`, `sequence` or `triangles`), `decode` or `encode`, and, but
//! for the encoding of indices, a count and a stride. Indices to be encoded are read as four bytes each.
#![tactic(auto)]

mod coding;
mod job;

use crate::coding::{Failure, coded};
use crate::job::{Job, job_of};
use gp_host::{StdSink, StdSource, read_all, write_all};
use std::env;
use std::process::ExitCode;

/// The most bytes that are read.
const MOST: usize = 1 << 29;

fn main(rt: HostRuntime) -> ExitCode {
    let Some(job) = asked(&rt) else {
        eprintln(
            &rt,
            "usage: gp_coders copy / KIND decode COUNT STRIDE / KIND encode [COUNT STRIDE]",
        );
        return ExitCode::from(2);
    };
    let alloc = rt.alloc();
    let Ok(bytes) = read_all(alloc, &mut StdSource::new(rt.stdin()), MOST) else {
        return ExitCode::from(3);
    };
    match coded(alloc, job, &bytes) {
        Ok(out) => match write_all(&mut StdSink::new(rt.stdout()), &out) {
            Ok(()) => ExitCode::SUCCESS,
            Err(_) => ExitCode::from(3),
        },
        Err(failure) => {
            tell(&rt, &failure);
            ExitCode::from(1)
        }
    }
}

/// The job of the words after the program's name, where they name one.
fn asked(rt: &HostRuntime) -> Option<Job> {
    let words: Vec<String> = env::args(rt).ok()?.skip(1).collect(rt.alloc()).ok()?;
    job_of(&words)
}

/// Tells why nothing was coded. That this fails changes nothing else.
fn tell(rt: &HostRuntime, failure: &Failure) {
    let _told = match failure {
        Failure::Stream(fault) => eprintln!(rt; "{fault:?}"),
        Failure::Shape => eprintln!(rt; "no such shape"),
        Failure::Memory => eprintln!(rt; "want of memory"),
    };
}

/// Tells a line.
fn eprintln(rt: &HostRuntime, line: &str) {
    let _told = eprintln!(rt; "{line}");
}
