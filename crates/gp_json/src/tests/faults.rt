// The four faults of a text, and their order.
use crate::fault::{JsonFault, JsonRefusal};
use crate::reading::read;
use std::alloc::{AllocError, Global};
use std::test::Fail;

fn fault_of(alloc: Global, text: &[u8]) -> Option<JsonFault> {
    match read(alloc, text) {
        Err(JsonRefusal::Fault(fault)) => Some(fault),
        _ => None,
    }
}

// A string of these bytes.
fn quoted(alloc: Global, bytes: &[u8]) -> Result<Vec<u8>, AllocError> {
    let mut text = Vec::from_slice(alloc, b"\"")?;
    text.extend_from_slice(bytes)?;
    text.push(b'"')?;
    Ok(text)
}

// RFC 3629, section 4: the least and greatest of each row of its table.
#[test]
fn takes_utf8(rt: HostRuntime) -> Result<(), Fail> {
    const ROWS: &[&[u8]] = &[
        b"\x7F",
        b"\xC2\x80",
        b"\xDF\xBF",
        b"\xE0\xA0\x80",
        b"\xEC\xBF\xBF",
        b"\xED\x9F\xBF",
        b"\xEE\x80\x80",
        b"\xEF\xBF\xBF",
        b"\xF0\x90\x80\x80",
        b"\xF3\xBF\xBF\xBF",
        b"\xF4\x8F\xBF\xBF",
    ];
    for &bytes in ROWS {
        let text = quoted(rt.alloc(), bytes)?;
        assert!(rt; read(rt.alloc(), &text).is_ok(), "{bytes:?}");
    }
    Ok(())
}

// What lies beside them.
#[test]
fn takes_nothing_but_utf8(rt: HostRuntime) -> Result<(), Fail> {
    const ROWS: &[&[u8]] = &[
        b"\x80",
        b"\xBF",
        b"\xC0\x80",
        b"\xC1\xBF",
        b"\xC2",
        b"\xC2\x7F",
        b"\xC2\xC0",
        b"\xE0\x9F\xBF",
        b"\xE0\xA0",
        b"\xE2\x28\xA1",
        b"\xED\xA0\x80",
        b"\xED\xBF\xBF",
        b"\xEF\xBF",
        b"\xF0\x8F\xBF\xBF",
        b"\xF0\x90\x80",
        b"\xF4\x90\x80\x80",
        b"\xF5\x80\x80\x80",
        b"\xF8\x88\x80\x80\x80",
        b"\xFE",
        b"\xFF",
    ];
    for &bytes in ROWS {
        let text = quoted(rt.alloc(), bytes)?;
        let fault = fault_of(rt.alloc(), &text);
        assert_eq!(rt; fault, Some(JsonFault::NotUtf8), "{bytes:?}");
    }
    Ok(())
}

// Keys are equal by their units, in each object by itself, however deep.
const EQUAL_KEYS: &str =
    "{\"a\":1,\"a\":2}\n{\"a\":1,\"\\u0061\":2}\n{\"\\n\":1,\"\\u000A\":2}\n{\"/\":1,\"\\/\":2}\n{\"\\uD834\\uDD1E\":1,\"\u{1D11E}\":2}\n{\"\\uDC00\":1,\"\\udc00\":2}\n{\"\":1,\"b\":2,\"\":3}\n{\"a\":1,\"b\":2,\"c\":3,\"d\":4,\"a\":5}\n[0,{\"b\":{\"b\":[],\"c\":0,\"b\":1}}]\n{\"a\":{\"x\":1},\"b\":[[{\"x\":1,\"x\":2}]]}";

const DISTINCT_KEYS: &str =
    "{\"a\":1,\"A\":2,\"\":3}\n{\"\\uD834\":1,\"\\uDD1E\":2,\"\\uD834\\uDD1E\":3}\n{\"a\":{\"a\":1},\"b\":[{\"a\":1},{\"a\":1}]}\n{\"u0061\":1,\"\\u0061\":2,\"\\\\u0061\":3}\n{\"\u{E9}\":1,\"e\u{301}\":2}";

#[test]
fn finds_equal_keys(rt: HostRuntime) {
    for line in EQUAL_KEYS.lines() {
        let fault = fault_of(rt.alloc(), line.as_bytes());
        assert_eq!(rt; fault, Some(JsonFault::DuplicateKey), "{line}");
    }
}

#[test]
fn tells_distinct_keys_apart(rt: HostRuntime) {
    for line in DISTINCT_KEYS.lines() {
        assert!(rt; read(rt.alloc(), line.as_bytes()).is_ok(), "{line}");
    }
}

// What stands before so many openings, and what stands behind them.
fn opened(
    alloc: Global,
    front: &[u8],
    opening: &[u8],
    count: usize,
    rest: &[u8],
) -> Result<Vec<u8>, AllocError> {
    let mut text = Vec::from_slice(alloc, front)?;
    for _ in 0..count {
        text.extend_from_slice(opening)?;
    }
    text.extend_from_slice(rest)?;
    Ok(text)
}

// So many lists and objects in each other.
fn nested(
    alloc: Global,
    opening: &[u8],
    closing: &[u8],
    count: usize,
    inner: &[u8],
) -> Result<Vec<u8>, AllocError> {
    let mut text = opened(alloc, b"", opening, count, inner)?;
    for _ in 0..count {
        text.extend_from_slice(closing)?;
    }
    Ok(text)
}

#[test]
fn nests_to_128_levels(rt: HostRuntime) -> Result<(), Fail> {
    const ROWS: &[(&[u8], &[u8], usize, &[u8], bool)] = &[
        (b"[", b"]", 128, b"", true),
        (b"[", b"]", 128, b"{\"a\":0}", false),
        (b"[", b"]", 129, b"", false),
        (b"{\"a\":", b"}", 128, b"0", true),
        (b"{\"a\":", b"}", 128, b"[]", false),
        (b"{\"a\":", b"}", 129, b"0", false),
        (b"[{ \"a\" : ", b"}]", 64, b"\"[{\"", true),
        (b"[{ \"a\" : ", b"}]", 64, b"[]", false),
        (b"[0,[],", b"]", 127, b"[],{},0", true),
    ];
    for &(opening, closing, count, inner, sound) in ROWS {
        let text = nested(rt.alloc(), opening, closing, count, inner)?;
        let expected = if sound {
            None
        } else {
            Some(JsonFault::TooDeep)
        };
        let refused = read(rt.alloc(), &text).err();
        assert_eq!(rt; refused, expected.map(JsonRefusal::Fault), "{count}");
    }
    Ok(())
}

#[test]
fn stops_at_the_first_level_too_deep(rt: HostRuntime) -> Result<(), Fail> {
    let many = opened(rt.alloc(), b"", b"[", 1_000_000, b"")?;
    assert_eq!(rt; fault_of(rt.alloc(), &many), Some(JsonFault::TooDeep));
    Ok(())
}

// Of two faults the first in order is told, wherever the other stands.
#[test]
fn orders_two_faults(rt: HostRuntime) -> Result<(), Fail> {
    const ROWS: &[(&[u8], usize, &[u8], JsonFault)] = &[
        // no UTF-8, and too deep
        (b"", 129, b"\xFF", JsonFault::NotUtf8),
        (b"[\"\xFF\",", 129, b"", JsonFault::NotUtf8),
        // no UTF-8, and no JSON
        (b"{\"a\":}\xFF", 0, b"", JsonFault::NotUtf8),
        (b"\xFF{\"a\":}", 0, b"", JsonFault::NotUtf8),
        // no UTF-8, and equal keys
        (b"{\"a\":1,\"a\":\"\xFF\"}", 0, b"", JsonFault::NotUtf8),
        (b"[\"\xFF\",{\"a\":1,\"a\":2}]", 0, b"", JsonFault::NotUtf8),
        // too deep, and no JSON
        (b"", 129, b"}", JsonFault::TooDeep),
        (b" [ {\"a\" : [] } ,\t", 128, b"", JsonFault::TooDeep),
        (b"", 128, b"{", JsonFault::TooDeep),
        (b"}", 129, b"", JsonFault::NotJson),
        (b"", 128, b"}[", JsonFault::NotJson),
        (b"", 128, b"0 [", JsonFault::NotJson),
        (b"", 128, b"]{", JsonFault::NotJson),
        (b"{", 129, b"", JsonFault::NotJson),
        // too deep, and equal keys
        (b"{\"a\":1,\"a\":", 128, b"", JsonFault::TooDeep),
        (b"[{\"a\":1,\"a\":2},", 128, b"", JsonFault::TooDeep),
        // no JSON, and equal keys
        (b"[{\"a\":1,\"a\":2},}", 0, b"", JsonFault::NotJson),
        (b"[01,{\"a\":1,\"a\":2}]", 0, b"", JsonFault::NotJson),
    ];
    for &(front, brackets, rest, expected) in ROWS {
        let text = opened(rt.alloc(), front, b"[", brackets, rest)?;
        assert_eq!(rt; fault_of(rt.alloc(), &text), Some(expected), "{rest:?}");
    }
    Ok(())
}
