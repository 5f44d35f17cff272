// Which words are commands.
use crate::analysed::SAMPLE;
use gp_app::{Command, Status, command, run};
use gp_host::{MemorySink, MemorySource, NoMemory, Source};
use std::alloc::Global;
use std::test::Fail;

pub(crate) const USAGE: &[u8] =
    b"usage: glbpack pack / unpack / analyse / sample N / lists / bundle F / pair F S / meshlets\n";

pub(crate) fn words_of(alloc: Global, texts: &[&str]) -> Result<Vec<String>, NoMemory> {
    let mut words = Vec::new(alloc);
    for text in texts {
        words.push(String::from_str(alloc, text)?)?;
    }
    Ok(words)
}

#[test]
fn six_words_begin_commands(rt: HostRuntime) -> Result<(), Fail> {
    let alloc = rt.alloc();
    assert_eq!(rt; command(&words_of(alloc, &["pack"])?), Some(Command::Pack));
    assert_eq!(rt;
        command(&words_of(alloc, &["unpack"])?),
        Some(Command::Unpack)
    );
    assert_eq!(rt;
        command(&words_of(alloc, &["analyse"])?),
        Some(Command::Analyse)
    );
    assert_eq!(rt;
        command(&words_of(alloc, &["lists"])?),
        Some(Command::Lists)
    );
    assert_eq!(rt;
        command(&words_of(alloc, &["meshlets"])?),
        Some(Command::Meshlets)
    );
    for (number, size) in [("1", 1), ("10", 10), ("99", 99), ("100", 100), ("512", 512)] {
        let asked = command(&words_of(alloc, &["sample", number])?);
        assert_eq!(rt; asked, Some(Command::Sample(size)));
    }
    let others: [&[&str]; 18] = [
        &[],
        &[""],
        &["Pack"],
        &["pack", "x"],
        &["sample"],
        &["sample", ""],
        &["sample", "0"],
        &["sample", "01"],
        &["sample", "+1"],
        &["sample", "1 "],
        &["sample", "513"],
        &["sample", "1000"],
        &["sample", "1", "1"],
        &["analyze"],
        &["analyse", "x"],
        &["meshlets", "x"],
        &["--help"],
        &["pack "],
    ];
    for words in others {
        assert_eq!(rt; command(&words_of(alloc, words)?), None);
    }
    Ok(())
}

#[test]
fn other_words_read_and_write_nothing(rt: HostRuntime) -> Result<(), Fail> {
    let alloc = rt.alloc();
    let words = words_of(alloc, &["sample", "01"])?;
    let mut input = MemorySource::new(Vec::from_slice(alloc, b"{}")?, 8, Vec::new(alloc));
    let mut output = MemorySink::new(alloc, 64, 8, Vec::new(alloc))?;
    let mut report = MemorySink::new(alloc, 96, 8, Vec::new(alloc))?;
    let status = run(alloc, &words, &mut input, &mut output, &mut report);
    assert_eq!(rt; status, Status::Usage);
    assert_eq!(rt; output.held(), b"".as_slice());
    assert_eq!(rt; report.held(), USAGE);
    let mut left = [0; 4];
    assert_eq!(rt; input.read(&mut left), Ok(2));
    Ok(())
}

#[test]
fn a_sample_is_packed_and_reads_nothing(rt: HostRuntime) -> Result<(), Fail> {
    let alloc = rt.alloc();
    let words = words_of(alloc, &["sample", "1"])?;
    let mut input = MemorySource::new(Vec::from_slice(alloc, b"{}")?, 8, Vec::new(alloc));
    let mut output = MemorySink::new(alloc, 1024, 8, Vec::new(alloc))?;
    let mut report = MemorySink::new(alloc, 96, 8, Vec::new(alloc))?;
    let status = run(alloc, &words, &mut input, &mut output, &mut report);
    assert_eq!(rt; status, Status::Done);
    assert_eq!(rt; output.held(), SAMPLE);
    assert_eq!(rt;
        report.held(),
        b"packed views 0 of 2 in 532 out 692\n".as_slice()
    );
    let mut left = [0; 4];
    assert_eq!(rt; input.read(&mut left), Ok(2));
    Ok(())
}

#[test]
fn each_status_has_its_exit_code(rt: HostRuntime) {
    assert_eq!(rt; Status::Done.code(), 0);
    assert_eq!(rt; Status::Refused.code(), 1);
    assert_eq!(rt; Status::Usage.code(), 2);
    assert_eq!(rt; Status::Outside.code(), 3);
    assert_eq!(rt; Status::Memory.code(), 4);
}
