//! Small lists, written by hand.
use super::*;
use std::test::Fail;

// Four triangles of a strip, whose corners are 0 to 5.
const STRIP: [u32; 12] = [0, 1, 2, 2, 1, 3, 2, 3, 4, 4, 3, 5];

#[test]
fn equal_records_of_two_rows_have_one_number(rt: HostRuntime) -> Result<(), Fail> {
    let alloc = rt.alloc();
    let numbering = number_records(alloc, &[5, 7, 5, 8, 5, 7], &[5, 8, 6, 0], 2)?;
    let first = numbering.first.as_slice();
    let second = numbering.second.as_slice();
    assert_eq!(rt; numbering.count, 3);
    assert_eq!(rt; first, [0, 1, 0].as_slice());
    assert_eq!(rt; second, [1, 2].as_slice());
    Ok(())
}

#[test]
fn sets_are_compared_and_repeats_refused(rt: HostRuntime) -> Result<(), Fail> {
    let alloc = rt.alloc();
    let first = [0, 1, 0, 2];
    assert_eq!(rt; same_vertices(alloc, &first, &[2, 0, 1], 4)?, true);
    assert_eq!(rt; same_vertices(alloc, &first, &[2, 0, 1, 0], 4)?, false);
    assert_eq!(rt; same_vertices(alloc, &first, &[2, 0], 4)?, false);
    assert_eq!(rt; same_vertices(alloc, &first, &[2, 0, 1, 3], 4)?, false);
    Ok(())
}

#[test]
fn triangles_are_counted_up_to_rotation(rt: HostRuntime) -> Result<(), Fail> {
    let alloc = rt.alloc();
    let turned = [3, 4, 2, 1, 2, 0, 5, 4, 3, 2, 1, 3];
    let mirrored = [3, 4, 2, 1, 2, 0, 5, 3, 4, 2, 1, 3];
    let doubled = [3, 4, 2, 1, 2, 0, 2, 0, 1, 2, 1, 3];
    assert_eq!(rt; same_triangles(alloc, &STRIP, &turned)?, true);
    assert_eq!(rt; same_triangles(alloc, &STRIP, &mirrored)?, false);
    assert_eq!(rt; same_triangles(alloc, &STRIP, &doubled)?, false);
    assert_eq!(rt; same_triangles(alloc, &[1, 2, 1], &[2, 1, 1])?, true);
    assert_eq!(rt; same_triangles(alloc, &[1, 2, 1], &[2, 2, 1])?, false);
    Ok(())
}
