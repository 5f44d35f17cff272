// What no clause says: that the definitions are the table of fields, row by row, on JSON texts (glTF 2.0, sections 5.1
// to 5.28; EXT_meshopt_compression), and that the call succeeds where memory is ample.
mod accessors;
mod buffers;
mod full;
mod meshes;
mod order;
mod others;
mod views;

use crate::{FieldRefusal, Place, read_fields};
use gp_json::read;
use std::alloc::Global;
use std::process::Abort;
use std::test::Fail;

// What a row of the table asks of a value. A reference points into a list of one item.
#[derive(Clone, Copy)]
enum Kind {
    Object,
    List,
    Text,
    Whole,
    Reference,
}

impl Kind {
    // Values of other kinds, and numbers of other spellings.
    fn others(self) -> &'static [&'static str] {
        match self {
            Kind::Object => &["null", "true", "1", "\"a\"", "[]", "[{}]"],
            Kind::List => &["null", "false", "0", "\"\"", "{}"],
            Kind::Text => &["null", "true", "1", "[\"a\"]", "{}"],
            Kind::Whole => &[
                "null",
                "true",
                "\"1\"",
                "[1]",
                "{}",
                "1.0",
                "1e0",
                "4294967296",
                "-1",
                "-0",
            ],
            Kind::Reference => &[
                "null",
                "true",
                "\"0\"",
                "[0]",
                "{}",
                "0.0",
                "0e0",
                "4294967296",
                "-1",
                "-0",
                "1",
            ],
        }
    }
}

// What stands before a value of another kind, that kind, and what stands after.
type Row = (&'static str, Kind, &'static str);

// The place that is named, or `None` where all fields are read.
type Answer = Option<(Place, usize)>;

// A text, and what it is answered by.
type Case = (&'static str, Answer);

fn answer_to(alloc: Global, text: &[u8]) -> Result<Answer, Fail> {
    let root = read(alloc, text)?;
    match read_fields(alloc, &root) {
        Ok(_) => Ok(None),
        Err(FieldRefusal::Fault(fault)) => Ok(Some((fault.member, fault.at))),
        Err(FieldRefusal::Memory) => Err(FieldRefusal::Memory)?,
    }
}

// The answer to a text in parts.
fn assert_answer(rt: &impl Abort, alloc: Global, parts: &[&str], want: Answer) -> Result<(), Fail> {
    let mut text = String::new(alloc);
    for part in parts {
        text.push_str(part)?;
    }
    let answer = answer_to(alloc, text.as_bytes())?;
    assert_eq!(rt; answer, want, "{text}");
    Ok(())
}

// The one answer to all these texts, each put into this frame.
fn assert_texts(
    rt: &impl Abort,
    alloc: Global,
    want: Answer,
    (before, after): (&str, &str),
    texts: &[&str],
) -> Result<(), Fail> {
    for text in texts {
        assert_answer(rt, alloc, &[before, text, after], want)?;
    }
    Ok(())
}

// The answer to each case, put behind this text.
fn assert_cases(
    rt: &impl Abort,
    alloc: Global,
    before: &'static str,
    cases: &[Case],
) -> Result<(), Fail> {
    for &(text, want) in cases {
        assert_answer(rt, alloc, &[before, text], want)?;
    }
    Ok(())
}

// That this place is named with each value of another kind.
fn assert_others(
    rt: &impl Abort,
    alloc: Global,
    place: (Place, usize),
    (first, last): (&'static str, &'static str),
    (before, kind, after): Row,
) -> Result<(), Fail> {
    for value in kind.others() {
        let text = [first, before, *value, after, last];
        assert_answer(rt, alloc, &text, Some(place))?;
    }
    Ok(())
}

// The same of each row.
fn assert_rows(
    rt: &impl Abort,
    alloc: Global,
    place: (Place, usize),
    frame: (&'static str, &'static str),
    rows: &[Row],
) -> Result<(), Fail> {
    for row in rows {
        assert_others(rt, alloc, place, frame, *row)?;
    }
    Ok(())
}
