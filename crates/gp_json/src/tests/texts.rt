// Texts that are in the grammar of RFC 8259, and texts that are not.
use crate::fault::{JsonFault, JsonRefusal};
use crate::printing::print;
use crate::reading::read;
use std::alloc::Global;
use std::test::Fail;

// Whether a text is read, and printed as this compact text.
fn compacts(alloc: Global, text: &str, compact: &str) -> Result<bool, Fail> {
    let Ok(tree) = read(alloc, text.as_bytes()) else {
        return Ok(false);
    };
    let printed = print(alloc, &tree)?;
    Ok(printed.as_slice() == compact.as_bytes())
}

fn is_no_json(alloc: Global, text: &[u8]) -> bool {
    read(alloc, text).err() == Some(JsonRefusal::Fault(JsonFault::NotJson))
}

// Section 6, a number a line.
const NUMBERS: &str =
    "0\n-0\n7\n10\n-12\n1.0\n0.50\n1e2\n1E2\n1E+2\n1e-2\n-0.5E+10\n0e0\n1.25e007\n123456789012345678901234567890";

const NO_NUMBERS: &str =
    "01\n00\n-01\n1.\n.5\n-.5\n+1\n-\n--1\n1e\n1E+\n1e-\n1.e2\n.e1\n1e2.5\n1.2.3\n0x1\n1_0\n- 1\n1 .5\nInfinity\nNaN\n1f";

// Sections 7 and 3, a string or literal a line.
const STRINGS: &str =
    "\"\"\n\"a/b\"\n\"\\\"\\\\\\/\\b\\f\\n\\r\\t\"\n\"\\u0041\\u00e9\\uFFff\"\n\"\\uD834\\uDD1E\"\n\"\\uD834\"\n\"\\uDC00x\"\n\"\u{7F}\u{E9}\u{20AC}\u{1D11E}\"\n\"[1,2]\"\ntrue\nfalse\nnull";

const NO_STRINGS: &str =
    "\"\n\"a\n\"\\\"\n\"\\\n\"\\x\"\n\"\\a\"\n\"\\0\"\n\"\\'\"\n\"\\u\"\n\"\\u1\"\n\"\\u12\"\n\"\\u123\"\n\"\\u12G4\"\n\"\\u12\u{E9}4\"\n\"\\U0041\"\n\"\\u-123\"\n\"a\tb\"\n\"\u{1F}\"\n\"\u{0}\"\n'a'\na\n\"a\"b\n\"\"\"\ntrue1\nTrue\nnul\nnulll\ntru\nfalsee\nundefined";

#[test]
fn reads_the_numbers_and_strings_of_the_grammar(rt: HostRuntime) -> Result<(), Fail> {
    for lines in [NUMBERS, STRINGS] {
        for line in lines.lines() {
            assert!(rt; compacts(rt.alloc(), line, line)?, "{line}");
        }
    }
    Ok(())
}

// Section 2: white space stands around values, keys, commas, colons and inside brackets.
#[test]
fn leaves_white_space_out(rt: HostRuntime) -> Result<(), Fail> {
    const ROWS: &[(&str, &str)] = &[
        (" \t\r\n0\n\r\t ", "0"),
        ("\n[ ]\n", "[]"),
        ("\t{\r}", "{}"),
        ("[ 1\t,\n2 , \r3 ]", "[1,2,3]"),
        ("[ [ ] , { } ]", "[[],{}]"),
        (
            "{ \"a\"\t:\n1 ,\r\"b\" : { \"c\" : \" \" } }",
            "{\"a\":1,\"b\":{\"c\":\" \"}}",
        ),
        ("[true ,false, null]", "[true,false,null]"),
        (
            "{\"b\":1.0,\"a\":[1e2,-0,\"\\u0041\"],\"\":0}",
            "{\"b\":1.0,\"a\":[1e2,-0,\"\\u0041\"],\"\":0}",
        ),
    ];
    for &(text, compact) in ROWS {
        assert!(rt; compacts(rt.alloc(), text, compact)?, "{text}");
    }
    Ok(())
}

// Sections 2, 4 and 5, a text a line. U+000B, U+000C, U+00A0 and U+2028 are no white space, U+FEFF
// is a byte order mark, and U+0000 ends no text.
const NO_TEXTS: &str =
    "\n \n\u{B}[]\n[]\u{C}\n\u{A0}[]\n[1\u{A0},2]\n[1,\u{2028}2]\n\u{FEFF}[]\n[]\u{FEFF}\n[]\u{0}\n\u{0}[]\n\u{0}\n1 2\n[] []\n[][]\n{}{}\n{} 1\n1,\n[1,]\n[,1]\n[,]\n[1,,2]\n[1 2]\n[1\n[1,\n[\n]\n[1}\n{\n}\n{]\n{\"a\":1\n{\"a\":1,\n{\"a\":1]\n{\"a\":1,}\n{,\"a\":1}\n{,}\n{\"a\"}\n{\"a\":}\n{\"a\" 1}\n{\"a\"::1}\n{\"a\",1}\n{:1}\n{1:1}\n{a:1}\n{null:1}\n{\"a\":1 \"b\":2}\n{\"a\":1;\"b\":2}\n[1:2]\n[\"a\":1]\n(1)\n// 1\n/**/[]\n[1]#";

#[test]
fn refuses_other_texts(rt: HostRuntime) {
    const TEXTS: &[&str] = &[NO_NUMBERS, NO_STRINGS, NO_TEXTS];
    for &lines in TEXTS {
        for line in lines.lines() {
            assert!(rt; is_no_json(rt.alloc(), line.as_bytes()), "{line}");
        }
    }
    assert!(rt; is_no_json(rt.alloc(), b"\"a\nb\""));
    assert!(rt; is_no_json(rt.alloc(), b"\"a\\\nb\""));
}
