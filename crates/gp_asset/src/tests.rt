// What no clause says: that the definitions are the rules of the formats, on JSON texts and BIN chunks, and that the call
// succeeds where memory is ample.
mod accessors;
mod buffers;
mod extensions;
mod full;
mod load;
mod order;
mod packed;
mod sparse;
mod views;

use crate::{Form, read_asset};
use gp_json::read;
use gp_rules::{AssetFault, AssetRefusal};
use std::alloc::Global;
use std::process::Abort;
use std::test::Fail;

// A row of a table: a part of a text, and the fault of the asset that the text stands for.
type Row<'a> = (&'a str, Option<AssetFault>);

// Of each row the fault of the text in which its part stands between two others.
fn assert_rows(
    rt: &impl Abort,
    alloc: Global,
    (before, after): (&str, &str),
    rows: &[Row<'_>],
    bin: Option<&[u8]>,
) -> Result<(), Fail> {
    for (part, want) in rows {
        assert_fault(rt, alloc, &[before, part, after], bin, *want)?;
    }
    Ok(())
}

// A row with two parts.
type Pair<'a> = (&'a str, &'a str, Option<AssetFault>);

// The same with both parts of a row between three others.
fn assert_pairs(
    rt: &impl Abort,
    alloc: Global,
    (before, between, after): (&str, &str, &str),
    rows: &[Pair<'_>],
    bin: Option<&[u8]>,
) -> Result<(), Fail> {
    for (first, second, want) in rows {
        let text = [before, first, between, second, after];
        assert_fault(rt, alloc, &text, bin, *want)?;
    }
    Ok(())
}

// The fault of a text in parts, read for all else than packing.
fn assert_fault(
    rt: &impl Abort,
    alloc: Global,
    parts: &[&str],
    bin: Option<&[u8]>,
    want: Option<AssetFault>,
) -> Result<(), Fail> {
    let mut text = String::new(alloc);
    for part in parts {
        text.push_str(part)?;
    }
    assert_form(rt, alloc, text.as_str(), bin, Form::Any, want)
}

// The fault of a text, read for this.
fn assert_form(
    rt: &impl Abort,
    alloc: Global,
    text: &str,
    bin: Option<&[u8]>,
    form: Form,
    want: Option<AssetFault>,
) -> Result<(), Fail> {
    let fault = fault_of(alloc, text.as_bytes(), bin, form)?;
    assert_eq!(rt; fault, want, "{text}");
    Ok(())
}

// The fault of an asset, or `None` where it has none.
fn fault_of(
    alloc: Global,
    text: &[u8],
    bin: Option<&[u8]>,
    form: Form,
) -> Result<Option<AssetFault>, Fail> {
    let root = read(alloc, text)?;
    match read_asset(alloc, &root, bin, form) {
        Ok(_) => Ok(None),
        Err(AssetRefusal::Fault(fault)) => Ok(Some(fault)),
        Err(AssetRefusal::Memory) => Err(AssetRefusal::Memory)?,
    }
}
