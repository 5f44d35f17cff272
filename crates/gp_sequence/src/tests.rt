//! Varints and small streams of indices. The expected values come from a decoder and an encoder of another hand.
use super::*;
use gp_groups::StreamFault;
use std::test::Fail;

#[test]
fn varints_are_read(rt: HostRuntime) {
    let cases: [(&[u8], Result<(u32, usize), StreamFault>); 25] = [
        // the least and the largest value of each length
        (b"\x00", Ok((0, 1))),
        (b"\x7f", Ok((127, 1))),
        (b"\x80\x01", Ok((128, 2))),
        (b"\xff\x7f", Ok((16383, 2))),
        (b"\x80\x80\x01", Ok((16384, 3))),
        (b"\xff\xff\x7f", Ok((2097151, 3))),
        (b"\x80\x80\x80\x01", Ok((2097152, 4))),
        (b"\xff\xff\xff\x7f", Ok((268435455, 4))),
        (b"\x80\x80\x80\x80\x01", Ok((268435456, 5))),
        (b"\xff\xff\xff\xff\x0f", Ok((4294967295, 5))),
        // longer spellings, and bytes that follow
        (b"\x80\x00", Ok((0, 2))),
        (b"\x81\x80\x00", Ok((1, 3))),
        (b"\x80\x80\x80\x80\x00", Ok((0, 5))),
        (b"\x7f\x80", Ok((127, 1))),
        (b"\x80\x80\x80\x80\x0f\xff", Ok((4026531840, 5))),
        // a fifth byte over 15, followed by others or not
        (b"\x80\x80\x80\x80\x10", Err(StreamFault::Varint)),
        (b"\xff\xff\xff\xff\x1f", Err(StreamFault::Varint)),
        (b"\x80\x80\x80\x80\x80", Err(StreamFault::Varint)),
        (b"\x80\x80\x80\x80\x8f\x00", Err(StreamFault::Varint)),
        (b"\x80\x80\x80\x80\xff", Err(StreamFault::Varint)),
        // cut short
        (b"", Err(StreamFault::Short)),
        (b"\x80", Err(StreamFault::Short)),
        (b"\xff\xff", Err(StreamFault::Short)),
        (b"\xff\xff\xff", Err(StreamFault::Short)),
        (b"\xff\xff\xff\xff", Err(StreamFault::Short)),
    ];
    for (bytes, want) in cases {
        assert_eq!(rt; read_varint(bytes), want, "{bytes:?}");
    }
}

#[test]
fn varints_are_written(rt: HostRuntime) {
    let cases: [(u32, &[u8]); 10] = [
        (0, b"\x00"),
        (127, b"\x7f"),
        (128, b"\x80\x01"),
        (16383, b"\xff\x7f"),
        (16384, b"\x80\x80\x01"),
        (2097151, b"\xff\xff\x7f"),
        (2097152, b"\x80\x80\x80\x01"),
        (268435455, b"\xff\xff\xff\x7f"),
        (268435456, b"\x80\x80\x80\x80\x01"),
        (4294967295, b"\xff\xff\xff\xff\x0f"),
    ];
    for (value, want) in cases {
        assert_eq!(rt; write_varint(value).as_slice(), want, "{value}");
    }
}

#[test]
fn differences_are_coded(rt: HostRuntime) {
    let cases = [
        (0, 0),
        (1, 4294967295),
        (2, 1),
        (3, 4294967294),
        (4294967294, 2147483647),
        (4294967295, 2147483648),
    ];
    for (coded, want) in cases {
        assert_eq!(rt; unzigzag32(coded), want, "{coded}");
    }
    assert_eq!(rt; zigzag_difference(7, 5), 3);
    assert_eq!(rt; zigzag_difference(5, 7), 4);
    assert_eq!(rt; zigzag_difference(1073741823, 0), 2147483645);
}

#[test]
fn an_index_is_put_at_its_place(rt: HostRuntime) {
    let mut list = [7; 8];
    assert_eq!(rt; put_index(0x04030201, 1, 4, &mut list), Ok(()));
    assert_eq!(rt; list, [7, 7, 7, 7, 1, 2, 3, 4]);
    assert_eq!(rt; put_index(65535, 1, 2, &mut list), Ok(()));
    assert_eq!(rt; list, [7, 7, 255, 255, 1, 2, 3, 4]);
    let wide = put_index(65536, 3, 2, &mut list);
    assert_eq!(rt; wide, Err(StreamFault::Width { at: 3 }));
    assert_eq!(rt; list, [7, 7, 255, 255, 1, 2, 3, 4]);
}

#[test]
fn sequences_are_written(rt: HostRuntime) -> Result<(), Fail> {
    let alloc = rt.alloc();
    let none = encode_sequence(alloc, &[])?;
    assert_eq!(rt; none.as_slice(), b"\xd1\0\0\0\0".as_slice());
    let rising = encode_sequence(alloc, &[0, 1, 2])?;
    assert_eq!(rt; rising.as_slice(), b"\xd1\x00\x04\x04\0\0\0\0".as_slice());
    let in_turn = encode_sequence(alloc, &[0, 100, 1, 101])?;
    assert_eq!(rt;
        in_turn.as_slice(),
        b"\xd1\x00\x91\x03\x04\x05\0\0\0\0".as_slice()
    );
    // a difference of 30 changes the baseline, one of -29 doesn't, one of -30 does
    let thirty = encode_sequence(alloc, &[0, 30, 1])?;
    assert_eq!(rt; thirty.as_slice(), b"\xd1\x00\x79\x73\0\0\0\0".as_slice());
    let back = encode_sequence(alloc, &[0, 30, 0])?;
    assert_eq!(rt; back.as_slice(), b"\xd1\x00\x79\x00\0\0\0\0".as_slice());
    let largest = encode_sequence(alloc, &[1073741823])?;
    assert_eq!(rt;
        largest.as_slice(),
        b"\xd1\xfd\xff\xff\xff\x0f\0\0\0\0".as_slice()
    );
    Ok(())
}

#[test]
fn sequences_are_read(rt: HostRuntime) {
    let mut wide = [1; 12];
    let read = decode_sequence(b"\xd1\x80\x80\x10\x79\x73\0\0\0\0", 3, 4, &mut wide);
    assert_eq!(rt; read, Ok(()));
    assert_eq!(rt; wide, [0, 0, 1, 0, 30, 0, 0, 0, 1, 0, 0, 0]);
    // one below 0 and one above again by the same baseline, and the largest value by the other
    let read = decode_sequence(
        b"\xd1\x02\x04\xff\xff\xff\xff\x0f\x01\x02\x03\x04",
        3,
        4,
        &mut wide,
    );
    assert_eq!(rt; read, Ok(()));
    assert_eq!(rt; wide, [255, 255, 255, 255, 0, 0, 0, 0, 0, 0, 0, 192]);
    let mut narrow = [1; 8];
    let read = decode_sequence(b"\xd1\x00\x91\x03\x04\x05\0\0\0\0", 4, 2, &mut narrow);
    assert_eq!(rt; read, Ok(()));
    assert_eq!(rt; narrow, [0, 0, 100, 0, 1, 0, 101, 0]);
    assert_eq!(rt; decode_sequence(b"\xd1\0\0\0\0", 0, 2, &mut []), Ok(()));
}

#[test]
fn faults_come_in_order(rt: HostRuntime) {
    // each stream is of two indices
    let cases: [(&[u8], Result<(), StreamFault>); 17] = [
        (b"", Err(StreamFault::Header)),
        (b"\xd0\0\0\0\0\0\0", Err(StreamFault::Header)),
        (b"\xd1", Err(StreamFault::Short)),
        (b"\xd1\x00", Err(StreamFault::Short)),
        (b"\xd1\x00\x80", Err(StreamFault::Short)),
        (
            b"\xd1\x00\xff\xff\xff\xff\x1f\0\0\0\0",
            Err(StreamFault::Varint),
        ),
        // 65535 and 65536 by the first baseline, and one below 0
        (b"\xd1\x00\xfc\xff\x0f\0\0\0\0", Ok(())),
        (
            b"\xd1\x00\x80\x80\x10\0\0\0\0",
            Err(StreamFault::Width { at: 1 }),
        ),
        (b"\xd1\x02\x00\0\0\0\0", Err(StreamFault::Width { at: 0 })),
        // an index too wide before a varint that is cut, too large, or before a tail
        (b"\xd1\x80\x80\x10", Err(StreamFault::Width { at: 0 })),
        (
            b"\xd1\x80\x80\x10\xff\xff\xff\xff\x1f",
            Err(StreamFault::Width { at: 0 }),
        ),
        (b"\xd1\x00\x80\x80\x10", Err(StreamFault::Width { at: 1 })),
        // tails
        (b"\xd1\x00\x00", Err(StreamFault::Tail { left: 0 })),
        (b"\xd1\x00\x00\0\0\0", Err(StreamFault::Tail { left: 3 })),
        (
            b"\xd1\x00\x00\0\0\0\0\0",
            Err(StreamFault::Tail { left: 5 }),
        ),
        (b"\xd1\x00\x00\0\0\0\0", Ok(())),
        (b"\xd1\x80\x00\x00\x01\x02\x03\x04", Ok(())),
    ];
    for (bytes, want) in cases {
        let mut dest = [0; 4];
        assert_eq!(rt; decode_sequence(bytes, 2, 2, &mut dest), want, "{bytes:?}");
    }
}
