// Groups whose bytes and modes were computed by another implementation of the format.
use crate::{best_mode, decode_group, encode_group, group_len, unzigzag8, zigzag8};

// A mode, sixteen coded values and the bytes of their group: with no value behind the packed ones, with one at either
// end, with some and with sixteen.
const GROUPS: [(u8, [u8; 16], &[u8]); 12] = [
    (0, [0, 0, 0, 0, 0, 0, 0, 0, 0, 0, 0, 0, 0, 0, 0, 0], &[]),
    (
        1,
        [0, 1, 2, 0, 1, 2, 2, 1, 0, 0, 1, 2, 2, 2, 1, 0],
        &[0x18, 0x69, 0x06, 0xA4],
    ),
    (
        1,
        [200, 1, 2, 0, 1, 2, 2, 1, 0, 0, 1, 2, 2, 2, 1, 0],
        &[0xD8, 0x69, 0x06, 0xA4, 0xC8],
    ),
    (
        1,
        [0, 1, 2, 0, 1, 2, 2, 1, 0, 0, 1, 2, 2, 2, 1, 3],
        &[0x18, 0x69, 0x06, 0xA7, 0x03],
    ),
    (
        1,
        [0, 3, 2, 4, 255, 2, 2, 1, 0, 7, 1, 2, 16, 2, 1, 5],
        &[0x3B, 0xE9, 0x36, 0xE7, 0x03, 0x04, 0xFF, 0x07, 0x10, 0x05],
    ),
    (
        1,
        [3, 4, 5, 6, 7, 8, 9, 10, 11, 12, 13, 14, 15, 16, 17, 18],
        &[
            0xFF, 0xFF, 0xFF, 0xFF, 0x03, 0x04, 0x05, 0x06, 0x07, 0x08, 0x09, 0x0A, 0x0B, 0x0C,
            0x0D, 0x0E, 0x0F, 0x10, 0x11, 0x12,
        ],
    ),
    (
        2,
        [0, 1, 2, 3, 4, 5, 6, 7, 8, 9, 10, 11, 12, 13, 14, 14],
        &[0x01, 0x23, 0x45, 0x67, 0x89, 0xAB, 0xCD, 0xEE],
    ),
    (
        2,
        [15, 1, 2, 3, 4, 5, 6, 7, 8, 9, 10, 11, 12, 13, 14, 14],
        &[0xF1, 0x23, 0x45, 0x67, 0x89, 0xAB, 0xCD, 0xEE, 0x0F],
    ),
    (
        2,
        [0, 1, 2, 3, 4, 5, 6, 7, 8, 9, 10, 11, 12, 13, 14, 255],
        &[0x01, 0x23, 0x45, 0x67, 0x89, 0xAB, 0xCD, 0xEF, 0xFF],
    ),
    (
        2,
        [0, 100, 2, 3, 99, 15, 6, 7, 8, 9, 98, 11, 12, 13, 14, 97],
        &[
            0x0F, 0x23, 0xFF, 0x67, 0x89, 0xFB, 0xCD, 0xEF, 0x64, 0x63, 0x0F, 0x62, 0x61,
        ],
    ),
    (
        2,
        [
            240, 241, 242, 243, 244, 245, 246, 247, 248, 249, 250, 251, 252, 253, 254, 255,
        ],
        &[
            0xFF, 0xFF, 0xFF, 0xFF, 0xFF, 0xFF, 0xFF, 0xFF, 0xF0, 0xF1, 0xF2, 0xF3, 0xF4, 0xF5,
            0xF6, 0xF7, 0xF8, 0xF9, 0xFA, 0xFB, 0xFC, 0xFD, 0xFE, 0xFF,
        ],
    ),
    (
        3,
        [
            0, 17, 34, 51, 68, 85, 102, 119, 136, 153, 170, 187, 204, 221, 238, 255,
        ],
        &[
            0x00, 0x11, 0x22, 0x33, 0x44, 0x55, 0x66, 0x77, 0x88, 0x99, 0xAA, 0xBB, 0xCC, 0xDD,
            0xEE, 0xFF,
        ],
    ),
];

// Sixteen coded values and their best mode.
const BEST: [([u8; 16], u8); 18] = [
    ([0, 0, 0, 0, 0, 0, 0, 0, 0, 0, 0, 0, 0, 0, 0, 0], 0),
    ([3, 3, 3, 3, 3, 3, 3, 3, 3, 3, 3, 3, 3, 3, 3, 3], 2),
    ([3, 3, 3, 3, 0, 0, 0, 0, 0, 0, 0, 0, 0, 0, 0, 0], 1),
    (
        [
            255, 255, 255, 255, 255, 255, 255, 255, 255, 255, 255, 255, 0, 0, 0, 0,
        ],
        3,
    ),
    ([1, 0, 0, 0, 0, 0, 0, 0, 0, 0, 0, 0, 0, 0, 0, 0], 1),
    ([2, 2, 2, 2, 2, 2, 2, 2, 2, 2, 2, 2, 2, 2, 2, 2], 1),
    ([3, 3, 3, 3, 3, 0, 0, 0, 0, 0, 0, 0, 0, 0, 0, 0], 2),
    (
        [
            255, 255, 255, 255, 255, 255, 255, 255, 255, 255, 255, 0, 0, 0, 0, 0,
        ],
        1,
    ),
    (
        [
            14, 14, 14, 14, 14, 14, 14, 14, 14, 14, 14, 14, 14, 14, 14, 14,
        ],
        2,
    ),
    (
        [
            15, 15, 15, 15, 15, 15, 15, 14, 14, 14, 14, 14, 14, 14, 14, 14,
        ],
        2,
    ),
    (
        [
            15, 15, 15, 15, 15, 15, 15, 15, 14, 14, 14, 14, 14, 14, 14, 14,
        ],
        3,
    ),
    ([15, 15, 15, 15, 15, 15, 15, 15, 2, 2, 2, 2, 2, 2, 2, 2], 1),
    (
        [
            255, 255, 255, 255, 255, 255, 255, 255, 255, 255, 255, 255, 255, 255, 255, 255,
        ],
        3,
    ),
    ([0, 0, 0, 0, 0, 0, 0, 0, 0, 0, 0, 0, 0, 0, 0, 255], 1),
    ([3, 3, 3, 3, 2, 2, 2, 2, 2, 2, 2, 2, 2, 2, 2, 2], 1),
    ([15, 15, 15, 15, 0, 0, 0, 0, 0, 0, 0, 0, 0, 0, 0, 0], 1),
    ([15, 3, 3, 3, 3, 2, 2, 2, 2, 2, 2, 2, 2, 2, 2, 2], 1),
    ([15, 3, 3, 3, 3, 3, 3, 3, 2, 2, 2, 2, 2, 2, 2, 2], 2),
];

#[test]
fn codes_deltas_by_turns(rt: HostRuntime) {
    for (delta, coded) in [(0, 0), (255, 1), (1, 2), (254, 3), (127, 254), (128, 255)] {
        assert_eq!(rt; zigzag8(delta), coded, "at {delta}");
        assert_eq!(rt; unzigzag8(coded), delta, "at {coded}");
    }
}

#[test]
fn reads_and_writes_groups(rt: HostRuntime) {
    for (mode, values, stream) in GROUPS {
        assert!(rt; mode < 4 && stream.len() <= 24);
        let mut padded = [0xFF; 64];
        padded[..stream.len()].copy_from_slice(stream);
        let mut read = [0xEE; 16];
        assert_eq!(rt; decode_group(mode, &padded, &mut read), Some(stream.len()));
        assert_eq!(rt; read, values);
        assert_eq!(rt; group_len(mode, &padded), Some(stream.len()));
        read = [0xEE; 16];
        assert_eq!(rt; decode_group(mode, stream, &mut read), Some(stream.len()));
        assert_eq!(rt; read, values);
        for cut in 0..stream.len() {
            assert_eq!(rt; decode_group(mode, &stream[..cut], &mut read), None);
            assert_eq!(rt; group_len(mode, &stream[..cut]), None);
        }
        if mode != 0 {
            assert_eq!(rt; encode_group(mode, &values).as_slice(), stream);
        }
    }
    assert!(rt; encode_group(0, &[0; 16]).is_empty());
}

#[test]
fn chooses_modes(rt: HostRuntime) {
    for (values, mode) in BEST {
        assert_eq!(rt; best_mode(&values), mode);
    }
    let mut threes = [3; 20];
    threes[..4].copy_from_slice(&[0xFF; 4]);
    assert_eq!(rt; encode_group(1, &[3; 16]).as_slice(), threes.as_slice());
    assert_eq!(rt; encode_group(2, &[3; 16]).as_slice(), [0x33; 8].as_slice());
}
