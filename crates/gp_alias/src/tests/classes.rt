// Which primitives are of one group, what a group has, and which views stay.
use super::rows::{COLUMN, LIST, OTHER, UNKNOWN, found_in};
use std::test::Fail;

// A group that is expected.
struct Expected {
    primitives: &'static [u32],
    columns: &'static [u32],
    lists: &'static [u32],
    bare: bool,
    count: u32,
    movable: bool,
}

struct Classes {
    accessors: &'static [&'static str],
    rest: &'static str,
    groups: &'static [Expected],
    // The new numbers of the views.
    numbers: [Option<u32>; 3],
}

const CLASSES: [Classes; 8] = [
    // other attributes differ, and the third shares nothing with the first
    Classes {
        accessors: &[COLUMN, OTHER, COLUMN, OTHER],
        rest: r#""meshes":[{"primitives":[{"attributes":{"POSITION":0}},{"attributes":{"POSITION":0,"NORMAL":1}},{"attributes":{"_A":1,"_B":2}}]},{"primitives":[{"attributes":{"POSITION":3}}]}]"#,
        groups: &[
            Expected {
                primitives: &[0, 1, 2],
                columns: &[0, 1, 2],
                lists: &[],
                bare: true,
                count: 6,
                movable: true,
            },
            Expected {
                primitives: &[3],
                columns: &[3],
                lists: &[],
                bare: true,
                count: 6,
                movable: true,
            },
        ],
        numbers: [None, None, Some(0)],
    },
    // the last primitive joins the first two
    Classes {
        accessors: &[COLUMN, OTHER, LIST],
        rest: r#""meshes":[{"primitives":[{"attributes":{"POSITION":1},"indices":2},{"attributes":{"POSITION":0},"indices":2},{"attributes":{"POSITION":0,"NORMAL":1},"indices":2}]}]"#,
        groups: &[Expected {
            primitives: &[0, 1, 2],
            columns: &[0, 1],
            lists: &[2],
            bare: false,
            count: 6,
            movable: true,
        }],
        numbers: [None, None, None],
    },
    // as the first, and points use an accessor of the class
    Classes {
        accessors: &[COLUMN, OTHER, COLUMN],
        rest: r#""meshes":[{"primitives":[{"attributes":{"POSITION":0}},{"attributes":{"POSITION":0,"NORMAL":1}},{"mode":0,"attributes":{"POSITION":1}},{"attributes":{"_A":1,"_B":2}}]}]"#,
        groups: &[Expected {
            primitives: &[0, 1, 3],
            columns: &[0, 1, 2],
            lists: &[],
            bare: true,
            count: 6,
            movable: false,
        }],
        numbers: [Some(0), Some(1), Some(2)],
    },
    // strips are of no group, and join none
    Classes {
        accessors: &[COLUMN, OTHER, OTHER],
        rest: r#""meshes":[{"primitives":[{"attributes":{"POSITION":0}},{"mode":5,"attributes":{"POSITION":0,"NORMAL":1}},{"attributes":{"POSITION":2}}]}]"#,
        groups: &[
            Expected {
                primitives: &[0],
                columns: &[0],
                lists: &[],
                bare: true,
                count: 6,
                movable: false,
            },
            Expected {
                primitives: &[2],
                columns: &[2],
                lists: &[],
                bare: true,
                count: 6,
                movable: true,
            },
        ],
        numbers: [Some(0), Some(1), Some(2)],
    },
    // targets alone join it, but a primitive without attributes doesn't move
    Classes {
        accessors: &[COLUMN, OTHER],
        rest: r#""meshes":[{"primitives":[{"attributes":{"POSITION":0}},{"attributes":{},"targets":[{"NORMAL":1},{"POSITION":0}]}]}]"#,
        groups: &[Expected {
            primitives: &[0, 1],
            columns: &[0, 1],
            lists: &[],
            bare: true,
            count: 6,
            movable: false,
        }],
        numbers: [Some(0), Some(1), Some(2)],
    },
    // a column that is the list too
    Classes {
        accessors: &[LIST, COLUMN],
        rest: r#""meshes":[{"primitives":[{"attributes":{"POSITION":1,"_A":0},"indices":0}]}]"#,
        groups: &[Expected {
            primitives: &[0],
            columns: &[0, 1],
            lists: &[0],
            bare: false,
            count: 6,
            movable: false,
        }],
        numbers: [Some(0), Some(1), Some(2)],
    },
    // an image has the view of a column
    Classes {
        accessors: &[COLUMN, OTHER, LIST],
        rest: r#""meshes":[{"primitives":[{"attributes":{"POSITION":0,"NORMAL":1},"indices":2}]}],"images":[{"bufferView":1,"mimeType":"image/png"}]"#,
        groups: &[Expected {
            primitives: &[0],
            columns: &[0, 1],
            lists: &[2],
            bare: false,
            count: 6,
            movable: true,
        }],
        numbers: [None, Some(0), None],
    },
    // a list in the view of the values of a `sparse` that stays
    Classes {
        accessors: &[COLUMN, LIST, UNKNOWN],
        rest: r#""meshes":[{"primitives":[{"attributes":{"POSITION":0},"indices":1},{"attributes":{"POSITION":2}}]}]"#,
        groups: &[
            Expected {
                primitives: &[0],
                columns: &[0],
                lists: &[1],
                bare: false,
                count: 6,
                movable: true,
            },
            Expected {
                primitives: &[1],
                columns: &[2],
                lists: &[],
                bare: true,
                count: 6,
                movable: false,
            },
        ],
        numbers: [None, Some(0), Some(1)],
    },
];

#[test]
fn primitives_that_share_accessors_are_of_one_class(rt: HostRuntime) -> Result<(), Fail> {
    for row in &CLASSES {
        let (groups, numbers) = found_in(rt.alloc(), row.accessors, row.rest)?;
        assert_eq!(rt; groups.len(), row.groups.len());
        for at in 0..groups.len() {
            let group = &groups[at];
            assert!(rt; at < row.groups.len());
            let expected = &row.groups[at];
            assert_eq!(rt; group.primitives.as_slice(), expected.primitives);
            assert_eq!(rt; group.columns.as_slice(), expected.columns);
            assert_eq!(rt; group.lists.as_slice(), expected.lists);
            assert_eq!(rt; group.bare, expected.bare);
            assert_eq!(rt; group.count, expected.count);
            assert_eq!(rt; group.movable, expected.movable);
        }
        assert_eq!(rt; numbers.as_slice(), row.numbers.as_slice());
    }
    Ok(())
}
