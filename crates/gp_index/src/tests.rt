//! Small streams and what they mean. The expected values come from a decoder and an encoder of another hand.
ghost use Rattle.std.specs.Prelude.{◌+◌, ◌*◌, ◌≤◌, length};

use super::*;
use gp_groups::StreamFault;
use std::alloc::{AllocError, Global};
use std::test::Fail;

// The sixteen bytes at the end of each stream that the encoder writes.
const TABLE: [u8; 16] = [
    0x00, 0x76, 0x87, 0x56, 0x67, 0x78, 0xA9, 0x86, 0x65, 0x89, 0x68, 0x98, 0x01, 0x69, 0x00, 0x00,
];

// A table with `next` and places at both ends, whose last two entries are unread.
const OTHER_TABLE: [u8; 16] = [
    0x00, 0x0E, 0xE0, 0xEE, 0x01, 0x10, 0x11, 0x12, 0x21, 0xAB, 0x3C, 0xD4, 0x05, 0x50, 0xFF, 0xFF,
];

// Index `k` of a list of four bytes an index.
fn index_at(list: &[u8], k: usize) -> u32
    requires { 4 * k + 4 ≤ length list.now }
{
    u32::from_le_bytes([
        list[4 * k],
        list[4 * k + 1],
        list[4 * k + 2],
        list[4 * k + 3],
    ])
}

#[test]
fn two_triangles_are_written_and_read_back(rt: HostRuntime) -> Result<(), Fail> {
    let cases: [([u8; 6], &[u8], [u32; 6]); 14] = [
        // the latest edge leads, an earlier one, and none that is the other way round
        ([0, 1, 2, 0, 2, 3], b"\xf0\x00", [0, 1, 2, 0, 2, 3]),
        ([0, 1, 2, 2, 1, 3], b"\xf0\x10", [0, 1, 2, 2, 1, 3]),
        ([0, 1, 2, 0, 1, 3], b"\xf0\xfe\x32", [0, 1, 2, 3, 0, 1]),
        // the second side leads; the third side; a triangle that is there twice
        ([0, 1, 2, 3, 2, 1], b"\xf0\x10", [0, 1, 2, 2, 1, 3]),
        ([0, 1, 2, 1, 0, 2], b"\xf0\x01", [0, 1, 2, 0, 2, 1]),
        ([0, 1, 2, 1, 2, 0], b"\xf0\xff\x13\x02", [0, 1, 2, 1, 2, 0]),
        // a corner that is `next` leads
        ([0, 1, 2, 2, 3, 1], b"\xf0\xfe\x21", [0, 1, 2, 3, 1, 2]),
        (
            [5, 6, 0, 5, 1, 6],
            b"\xfe\x10\xff\x0a\x02",
            [0, 5, 6, 6, 5, 1],
        ),
        // behind an edge one down, one up, and farther
        (
            [10, 20, 30, 10, 30, 29],
            b"\xff\x0d\xff\x14\x14\x14",
            [10, 20, 30, 10, 30, 29],
        ),
        (
            [10, 20, 30, 10, 30, 31],
            b"\xff\x0e\xff\x14\x14\x14",
            [10, 20, 30, 10, 30, 31],
        ),
        (
            [10, 20, 30, 30, 20, 40],
            b"\xff\x1f\xff\x14\x14\x14\x14",
            [10, 20, 30, 30, 20, 40],
        ),
        // equal corners
        (
            [7, 0, 7, 7, 0, 8],
            b"\xfe\x2e\xff\x0e\x00",
            [0, 7, 7, 7, 0, 8],
        ),
        (
            [3, 3, 3, 3, 3, 3],
            b"\xff\x01\xff\x06\x00\x00",
            [3, 3, 3, 3, 3, 3],
        ),
        ([1, 2, 0, 5, 4, 3], b"\xf0\xfe\xf0\x0a", [0, 1, 2, 3, 5, 4]),
    ];
    for (list, codes, want) in cases {
        let [a, b, c, d, e, f] = list;
        let list = [
            u32::from(a),
            u32::from(b),
            u32::from(c),
            u32::from(d),
            u32::from(e),
            u32::from(f),
        ];
        let bytes = encode_triangles(rt.alloc(), &list)?;
        assert_eq!(rt; bytes.len(), 17 + codes.len(), "{list:?}");
        assert!(rt; bytes.starts_with(&[0xE1]) && bytes.ends_with(&TABLE));
        assert_eq!(rt; bytes.get(1..1 + codes.len()), Some(codes), "{list:?}");
        let mut read = [0; 24];
        assert_eq!(rt; decode_triangles(&bytes, 6, 4, &mut read), Ok(()));
        for k in 0..6 {
            assert_eq!(rt; index_at(&read, k), want[k], "{list:?}");
        }
    }
    Ok(())
}

#[test]
fn other_lists_are_written(rt: HostRuntime) -> Result<(), Fail> {
    let none = encode_triangles(rt.alloc(), &[])?;
    assert_eq!(rt; none.len(), 17);
    let turned = encode_triangles(rt.alloc(), &[1, 2, 0])?;
    assert!(rt; turned.starts_with(b"\xe1\xf0"));
    assert_eq!(rt; turned.len(), 18);
    let mut read = [0; 6];
    assert_eq!(rt; decode_triangles(&turned, 3, 2, &mut read), Ok(()));
    assert_eq!(rt; read, [0, 0, 1, 0, 2, 0]);
    let others = encode_triangles(rt.alloc(), &[5, 6, 7])?;
    assert!(rt; others.starts_with(b"\xe1\xff\xff\x0a\x02\x02"));
    assert_eq!(rt; others.len(), 22);
    let largest = encode_triangles(rt.alloc(), &[0, 16777214, 16777215])?;
    assert!(rt; largest.starts_with(b"\xe1\xfe\xff\xfc\xff\xff\x0f\x02"));
    Ok(())
}

// What the code of the last of seventeen triangles tells, behind triangles that fill both queues: edges of 0 and of 1000 down to
// 10, vertices 1000 and 16 down to 0, 17 for `next`, and 1000 for `last`.
fn last_triangle(
    alloc: Global,
    code: u8,
    auxiliary: &[u8],
    table: &[u8; 16],
) -> Result<Result<(u32, u32, u32), StreamFault>, AllocError> {
    let mut bytes = Vec::new(alloc);
    bytes.extend_from_slice(b"\xe1\xf0\0\0\0\0\0\0\0\0\0\0\0\0\0\0\x0f")?;
    bytes.push(code)?;
    bytes.extend_from_slice(b"\xd0\x0f")?;
    bytes.extend_from_slice(auxiliary)?;
    bytes.extend_from_slice(table)?;
    let mut list = [0; 204];
    if let Err(fault) = decode_triangles(&bytes, 51, 4, &mut list) {
        return Ok(Err(fault));
    }
    Ok(Ok((
        index_at(&list, 48),
        index_at(&list, 49),
        index_at(&list, 50),
    )))
}

#[test]
fn each_code_behind_an_edge_is_read(rt: HostRuntime) -> Result<(), Fail> {
    let edges = [
        (0, 1000),
        (1000, 16),
        (0, 16),
        (16, 15),
        (0, 15),
        (15, 14),
        (0, 14),
        (14, 13),
        (0, 13),
        (13, 12),
        (0, 12),
        (12, 11),
        (0, 11),
        (11, 10),
        (0, 10),
    ];
    let thirds = [
        17, 16, 15, 14, 13, 12, 11, 10, 9, 8, 7, 6, 5, 999, 1001, 995,
    ];
    for code in 0..0xF0_u8 {
        let (a, b) = edges[usize::from(code / 16)];
        let c = thirds[usize::from(code % 16)];
        let auxiliary: &[u8] = if code % 16 == 15 { b"\x09" } else { b"" };
        let read = last_triangle(rt.alloc(), code, auxiliary, &TABLE)?;
        assert_eq!(rt; read, Ok((a, b, c)), "code {code}");
    }
    Ok(())
}

#[test]
fn each_entry_of_a_table_is_read(rt: HostRuntime) -> Result<(), Fail> {
    let tables = [
        (
            TABLE,
            [
                (18, 19),
                (11, 12),
                (10, 11),
                (13, 12),
                (12, 11),
                (11, 10),
                (8, 9),
                (10, 12),
                (12, 13),
                (10, 9),
                (12, 10),
                (9, 10),
                (18, 1000),
                (12, 9),
            ],
        ),
        (
            OTHER_TABLE,
            [
                (18, 19),
                (18, 4),
                (4, 18),
                (4, 4),
                (18, 1000),
                (1000, 18),
                (1000, 1000),
                (1000, 16),
                (16, 1000),
                (8, 7),
                (15, 6),
                (5, 14),
                (18, 13),
                (13, 18),
            ],
        ),
    ];
    for (table, corners) in tables {
        for code in 0xF0..0xFE_u8 {
            let (b, c) = corners[usize::from(code - 0xF0)];
            let read = last_triangle(rt.alloc(), code, b"", &table)?;
            assert_eq!(rt; read, Ok((17, b, c)), "code {code}");
        }
    }
    Ok(())
}

#[test]
fn each_byte_of_halves_is_read(rt: HostRuntime) -> Result<(), Fail> {
    // -5, 5000 and 3 as varints, for the explicit corners in their order
    let spelled: &[u8] = b"\x09\x90\x4e\x06";
    let lens = [0, 1, 3, 4];
    let cases = [
        (0xFE, 0x00, (0, 1, 2)),
        (0xFE, 0x01, (17, 18, 1000)),
        (0xFE, 0x10, (17, 1000, 18)),
        (0xFE, 0x0F, (17, 18, 995)),
        (0xFE, 0xF0, (17, 995, 18)),
        (0xFE, 0xFF, (17, 995, 5995)),
        (0xFE, 0xEE, (17, 4, 4)),
        (0xFF, 0x00, (995, 0, 1)),
        (0xFF, 0x01, (995, 17, 1000)),
        (0xFF, 0x10, (995, 1000, 17)),
        (0xFF, 0x0F, (995, 17, 5995)),
        (0xFF, 0xF0, (995, 5995, 17)),
        (0xFF, 0xFF, (995, 5995, 5998)),
        (0xFF, 0xEE, (995, 4, 4)),
    ];
    // the corners of all 256 bytes together, as digits to the base 31 modulo 2^32
    let sums = [(0xFE_u8, 1048240488_u32), (0xFF, 2392301890)];
    for (code, want) in sums {
        let mut sum: u32 = 0;
        for halves in 0..=0xFF_u8 {
            let mut explicit = usize::from(code - 0xFE);
            if halves / 16 == 15 {
                explicit += 1;
            }
            if halves % 16 == 15 {
                explicit += 1;
            }
            let mut auxiliary = vec![in rt.alloc(); halves]?;
            auxiliary.extend_from_slice(&spelled[..lens[explicit]])?;
            let read = last_triangle(rt.alloc(), code, &auxiliary, &TABLE)?;
            for (same_code, same_halves, corners) in cases {
                if (same_code, same_halves) == (code, halves) {
                    assert_eq!(rt; read, Ok(corners), "{code} {halves}");
                }
            }
            let (a, b, c) = read?;
            for corner in [a, b, c] {
                sum = sum.wrapping_mul(31).wrapping_add(corner);
            }
        }
        assert_eq!(rt; sum, want, "code {code}");
    }
    Ok(())
}

#[test]
fn faults_of_one_triangle_come_in_order(rt: HostRuntime) -> Result<(), Fail> {
    let alloc = rt.alloc();
    // what stands between the first byte and the table
    let cases: [(&[u8], Result<(), StreamFault>); 22] = [
        (b"\xf0", Ok(())),
        (b"", Err(StreamFault::Short)),
        // an edge that isn't filled, a vertex that isn't, 65535 by a varint, and 65536
        (b"\x00", Err(StreamFault::Width { at: 0 })),
        (b"\xff\x01\xfe\xff\x07", Err(StreamFault::Width { at: 2 })),
        (b"\xff\xf0\xfe\xff\x07\x00", Ok(())),
        (
            b"\xff\xf0\x80\x80\x08\x00",
            Err(StreamFault::Width { at: 0 }),
        ),
        // each corner
        (
            b"\xff\xf0\x00\x80\x80\x08",
            Err(StreamFault::Width { at: 1 }),
        ),
        (
            b"\xff\x0f\x00\x80\x80\x08",
            Err(StreamFault::Width { at: 2 }),
        ),
        (b"\xfe\x0e", Err(StreamFault::Width { at: 2 })),
        (b"\xfe\xe0", Err(StreamFault::Width { at: 1 })),
        // no byte for the halves, none for an index, a varint that is cut and one that is too large
        (b"\xfe", Err(StreamFault::Short)),
        (b"\xff", Err(StreamFault::Short)),
        (b"\xff\xff\x0a\x02", Err(StreamFault::Short)),
        (b"\xff\x01\x80", Err(StreamFault::Short)),
        (b"\xff\x01\xff\xff\xff\xff\x10", Err(StreamFault::Varint)),
        // a corner too wide before one that can't be read
        (b"\xff\xf0\x80\x80\x08", Err(StreamFault::Short)),
        (
            b"\xff\xf0\x80\x80\x08\x80\x80\x80\x80\x10",
            Err(StreamFault::Varint),
        ),
        (b"\x0f", Err(StreamFault::Short)),
        (b"\x0f\xff\xff\xff\xff\x1f", Err(StreamFault::Varint)),
        // bytes that are left, behind a corner that is too wide too
        (b"\xf0\x00", Err(StreamFault::Tail { left: 1 })),
        (
            b"\xff\xf0\x00\x00\x00\x00",
            Err(StreamFault::Tail { left: 2 }),
        ),
        (b"\x00\x00", Err(StreamFault::Width { at: 0 })),
    ];
    for (front, want) in cases {
        let mut bytes = vec![in alloc; 0xE1]?;
        bytes.extend_from_slice(front)?;
        bytes.extend_from_slice(&TABLE)?;
        let mut list = [0; 6];
        assert_eq!(rt;
            decode_triangles(&bytes, 3, 2, &mut list),
            want,
            "{front:?}"
        );
    }
    Ok(())
}

#[test]
fn faults_of_the_whole_come_in_order(rt: HostRuntime) {
    // each stream is of two triangles
    let cases: [(&[u8], Result<(), StreamFault>); 11] = [
        (b"", Err(StreamFault::Header)),
        (b"\xe0", Err(StreamFault::Header)),
        (b"\xe1", Err(StreamFault::Short)),
        (
            b"\xe1\xf0\x00\0\0\0\0\0\0\0\0\0\0\0\0\0\0\0",
            Err(StreamFault::Short),
        ),
        (b"\xe1\xf0\x00\0\0\0\0\0\0\0\0\0\0\0\0\0\0\0\0", Ok(())),
        // the table is asked before the triangles, its first fourteen entries alone
        (
            b"\xe1\xf0\xff\0\0\0\x5f\0\0\0\0\0\0\0\0\0\0\0\0",
            Err(StreamFault::Table { entry: 3 }),
        ),
        (
            b"\xe1\xf0\x00\0\0\0\0\0\0\0\0\0\0\0\0\0\xf0\0\0",
            Err(StreamFault::Table { entry: 13 }),
        ),
        (b"\xe1\xf0\x00\0\0\0\0\0\0\0\0\0\0\0\0\0\0\xff\xff", Ok(())),
        // the first triangle's fault comes before the second's
        (
            b"\xe1\x00\xff\0\0\0\0\0\0\0\0\0\0\0\0\0\0\0\0",
            Err(StreamFault::Width { at: 0 }),
        ),
        (
            b"\xe1\xf0\x0d\0\0\0\0\0\0\0\0\0\0\0\0\0\0\0\0",
            Err(StreamFault::Width { at: 5 }),
        ),
        (
            b"\xe1\xf0\xff\0\0\0\0\0\0\0\0\0\0\0\0\0\0\0\0",
            Err(StreamFault::Short),
        ),
    ];
    for (bytes, want) in cases {
        let mut list = [0; 12];
        assert_eq!(rt; decode_triangles(bytes, 6, 2, &mut list), want, "{bytes:?}");
    }
}

#[test]
fn last_wraps_both_ways(rt: HostRuntime) {
    // one down from 0, then one up from there; the unfilled places of both queues
    let mut list = [0; 24];
    let read = decode_triangles(
        b"\xe1\x0d\x0e\0\0\0\0\0\0\0\0\0\0\0\0\0\0\0\0",
        6,
        4,
        &mut list,
    );
    assert_eq!(rt; read, Ok(()));
    let want = [u32::MAX, u32::MAX, u32::MAX, u32::MAX, u32::MAX, 0];
    for k in 0..6 {
        assert_eq!(rt; index_at(&list, k), want[k], "index {k}");
    }
}
