// Worked rows, and each call with ample memory.
use super::*;
use std::test::Fail;

const THREE: [u32; 9] = [0, 1, 2, 3, 4, 5, 0, 2, 6];

#[test]
fn a_fan_goes_round_its_vertex(rt: HostRuntime) -> Result<(), Fail> {
    let alloc = rt.alloc();
    let order = tipsify(alloc, &THREE, 7)?;
    assert_eq!(rt; order.as_slice(), [0, 1, 2, 0, 2, 6, 3, 4, 5].as_slice());
    assert_eq!(rt; misses(&THREE), 7);
    assert_eq!(rt; misses(&order), 7);
    let few_of_many = tipsify(alloc, &[10, 20, 30, 40, 50, 60, 10, 30, 70], 71)?;
    assert_eq!(rt;
        few_of_many.as_slice(),
        [10, 20, 30, 10, 30, 70, 40, 50, 60].as_slice()
    );
    Ok(())
}

#[test]
fn an_order_without_fewer_misses_is_left(rt: HostRuntime) -> Result<(), Fail> {
    let mut list = THREE;
    let fewer = better_order(rt.alloc(), &mut list, 7)?;
    assert_eq!(rt; fewer, false);
    assert_eq!(rt; list.as_slice(), THREE.as_slice());
    Ok(())
}

#[test]
fn an_order_with_fewer_misses_is_taken(rt: HostRuntime) -> Result<(), Fail> {
    let mut list = [
        0, 1, 2, 3, 4, 5, 6, 7, 8, 9, 10, 11, 12, 13, 14, 15, 16, 17, 0, 1, 2,
    ];
    assert_eq!(rt; misses(&list), 21);
    let fewer = better_order(rt.alloc(), &mut list, 18)?;
    assert_eq!(rt; fewer, true);
    let order = [
        0, 1, 2, 0, 1, 2, 3, 4, 5, 6, 7, 8, 9, 10, 11, 12, 13, 14, 15, 16, 17,
    ];
    assert_eq!(rt; list.as_slice(), order.as_slice());
    assert_eq!(rt; misses(&list), 18);
    Ok(())
}

#[test]
fn a_square_touches_one_line(rt: HostRuntime) -> Result<(), Fail> {
    let square = [0, 1, 2, 0, 2, 3];
    assert_eq!(rt; lines(&square, 8), 1);
    assert_eq!(rt; lines(&square, 64), 4);
    assert_eq!(rt; misses(&square), 4);
    Ok(())
}

#[test]
fn triangles_that_share_nothing_come_by_their_vertices(rt: HostRuntime) -> Result<(), Fail> {
    let alloc = rt.alloc();
    let mut list = [0, 1, 2, 9, 10, 11, 6, 7, 8, 3, 4, 5];
    let order = tipsify(alloc, &list, 12)?;
    assert_eq!(rt;
        order.as_slice(),
        [0, 1, 2, 3, 4, 5, 6, 7, 8, 9, 10, 11].as_slice()
    );
    assert_eq!(rt; misses(&list), 12);
    assert_eq!(rt; misses(&order), 12);
    let fewer = better_order(alloc, &mut list, 12)?;
    assert_eq!(rt; fewer, false);
    Ok(())
}
