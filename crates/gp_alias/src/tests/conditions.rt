// Each condition of a group that moves, met at its bound and broken alone.
use super::rows::{COLUMN, LIST, MANY, OTHER, PATCHED, UNKNOWN, found_in};
use crate::Group;
use crate::moves::are_few_corners;
use gp_host::Numbers;
use gp_rules::{Accessor, Component, Shape};
use std::test::Fail;

// A file whose first group moves or not.
struct Condition {
    accessors: &'static [&'static str],
    rest: &'static str,
    moves: bool,
}

// One primitive with a list.
const LISTED: &str = r#""meshes":[{"primitives":[{"attributes":{"POSITION":0},"indices":1}]}]"#;
// One of two columns with a list.
const TWO_COLUMNS: &str =
    r#""meshes":[{"primitives":[{"attributes":{"POSITION":0,"_A":1},"indices":2}]}]"#;
// One without.
const ALONE: &str = r#""meshes":[{"primitives":[{"attributes":{"POSITION":0}}]}]"#;

const CONDITIONS: [Condition; 41] = [
    // extensions
    Condition {
        accessors: &[COLUMN, LIST],
        rest: LISTED,
        moves: true,
    },
    Condition {
        accessors: &[COLUMN, LIST],
        rest: r#""meshes":[{"primitives":[{"attributes":{"POSITION":0},"indices":1}]}],"extensionsUsed":["KHR_mesh_quantization"]"#,
        moves: true,
    },
    Condition {
        accessors: &[COLUMN, LIST],
        rest: r#""meshes":[{"primitives":[{"attributes":{"POSITION":0},"indices":1}]}],"extensionsUsed":["EXT_mesh_features"]"#,
        moves: false,
    },
    // attributes
    Condition {
        accessors: &[COLUMN, LIST],
        rest: r#""meshes":[{"primitives":[{"attributes":{"POSITION":0},"targets":[{"POSITION":0}],"indices":1},{"attributes":{"_A":0},"indices":1}]}]"#,
        moves: true,
    },
    Condition {
        accessors: &[COLUMN, LIST],
        rest: r#""meshes":[{"primitives":[{"attributes":{"POSITION":0},"indices":1},{"attributes":{},"targets":[{"POSITION":0}],"indices":1}]}]"#,
        moves: false,
    },
    // columns: as many, scalars or vectors, given, resolvable
    Condition {
        accessors: &[COLUMN, OTHER, LIST],
        rest: TWO_COLUMNS,
        moves: true,
    },
    Condition {
        accessors: &[
            COLUMN,
            r#"{"bufferView":1,"componentType":5121,"count":5,"type":"VEC4"}"#,
            LIST,
        ],
        rest: TWO_COLUMNS,
        moves: false,
    },
    Condition {
        accessors: &[
            COLUMN,
            r#"{"bufferView":1,"componentType":5121,"count":6,"type":"SCALAR"}"#,
            LIST,
        ],
        rest: TWO_COLUMNS,
        moves: true,
    },
    Condition {
        accessors: &[
            COLUMN,
            r#"{"componentType":5121,"count":6,"type":"MAT2","sparse":{"count":1,"indices":{"bufferView":2,"byteOffset":24,"componentType":5121},"values":{"bufferView":2,"byteOffset":28}}}"#,
            LIST,
        ],
        rest: TWO_COLUMNS,
        moves: false,
    },
    Condition {
        accessors: &[
            COLUMN,
            r#"{"componentType":5121,"count":6,"type":"VEC4","sparse":{"count":1,"indices":{"bufferView":2,"byteOffset":24,"componentType":5121},"values":{"bufferView":2,"byteOffset":28}}}"#,
            LIST,
        ],
        rest: TWO_COLUMNS,
        moves: true,
    },
    Condition {
        accessors: &[
            COLUMN,
            r#"{"componentType":5121,"count":6,"type":"VEC4"}"#,
            LIST,
        ],
        rest: TWO_COLUMNS,
        moves: false,
    },
    Condition {
        accessors: &[COLUMN, PATCHED, LIST],
        rest: TWO_COLUMNS,
        moves: true,
    },
    Condition {
        accessors: &[COLUMN, UNKNOWN, LIST],
        rest: TWO_COLUMNS,
        moves: false,
    },
    // 2^24 vertices, and one more
    Condition {
        accessors: &[
            r#"{"componentType":5121,"count":16777216,"type":"SCALAR","sparse":{"count":1,"indices":{"bufferView":2,"byteOffset":24,"componentType":5121},"values":{"bufferView":2,"byteOffset":28}}}"#,
            LIST,
        ],
        rest: LISTED,
        moves: true,
    },
    Condition {
        accessors: &[
            r#"{"componentType":5121,"count":16777217,"type":"SCALAR","sparse":{"count":1,"indices":{"bufferView":2,"byteOffset":24,"componentType":5121},"values":{"bufferView":2,"byteOffset":28}}}"#,
            LIST,
        ],
        rest: LISTED,
        moves: false,
    },
    // users of a column
    Condition {
        accessors: &[COLUMN, OTHER, LIST, COLUMN],
        rest: r#""meshes":[{"primitives":[{"attributes":{"POSITION":0},"indices":2},{"attributes":{"_A":0},"indices":2},{"mode":0,"attributes":{"POSITION":1}}]}],"skins":[{"inverseBindMatrices":3,"joints":[0]}]"#,
        moves: true,
    },
    Condition {
        accessors: &[COLUMN, OTHER, LIST],
        rest: r#""meshes":[{"primitives":[{"attributes":{"POSITION":0},"indices":2},{"mode":0,"attributes":{"POSITION":0}}]}]"#,
        moves: false,
    },
    Condition {
        accessors: &[COLUMN, LIST],
        rest: r#""meshes":[{"primitives":[{"attributes":{"POSITION":0},"indices":1}]}],"skins":[{"inverseBindMatrices":0,"joints":[0]}]"#,
        moves: false,
    },
    Condition {
        accessors: &[COLUMN, LIST],
        rest: r#""meshes":[{"primitives":[{"attributes":{"POSITION":0},"indices":1}]}],"animations":[{"channels":[],"samplers":[{"input":0,"output":0}]}]"#,
        moves: false,
    },
    // lists: whole triangles of numbers, given, resolvable
    Condition {
        accessors: &[
            COLUMN,
            r#"{"bufferView":2,"componentType":5121,"count":3,"type":"SCALAR"}"#,
        ],
        rest: LISTED,
        moves: true,
    },
    Condition {
        accessors: &[
            COLUMN,
            r#"{"bufferView":2,"componentType":5121,"count":5,"type":"SCALAR"}"#,
        ],
        rest: LISTED,
        moves: false,
    },
    Condition {
        accessors: &[
            COLUMN,
            r#"{"bufferView":2,"componentType":5120,"count":6,"type":"SCALAR"}"#,
        ],
        rest: LISTED,
        moves: false,
    },
    Condition {
        accessors: &[
            COLUMN,
            r#"{"bufferView":2,"componentType":5126,"count":6,"type":"SCALAR"}"#,
        ],
        rest: LISTED,
        moves: false,
    },
    Condition {
        accessors: &[
            COLUMN,
            r#"{"bufferView":2,"componentType":5121,"count":6,"type":"VEC2"}"#,
        ],
        rest: LISTED,
        moves: false,
    },
    Condition {
        accessors: &[
            COLUMN,
            r#"{"componentType":5121,"count":3,"type":"SCALAR"}"#,
        ],
        rest: LISTED,
        moves: false,
    },
    Condition {
        accessors: &[
            COLUMN,
            r#"{"componentType":5121,"count":6,"type":"SCALAR","sparse":{"count":1,"indices":{"bufferView":2,"byteOffset":24,"componentType":5121},"values":{"bufferView":2,"byteOffset":28}}}"#,
        ],
        rest: LISTED,
        moves: true,
    },
    Condition {
        accessors: &[
            COLUMN,
            r#"{"componentType":5121,"count":6,"type":"SCALAR","sparse":{"count":1,"indices":{"bufferView":2,"byteOffset":25,"componentType":5121},"values":{"bufferView":2,"byteOffset":28}}}"#,
        ],
        rest: LISTED,
        moves: false,
    },
    // numbers of vertices, none the greatest of its component
    Condition {
        accessors: &[
            COLUMN,
            r#"{"bufferView":2,"byteOffset":9,"componentType":5121,"count":3,"type":"SCALAR"}"#,
        ],
        rest: LISTED,
        moves: true,
    },
    Condition {
        accessors: &[
            COLUMN,
            r#"{"bufferView":2,"byteOffset":6,"componentType":5121,"count":3,"type":"SCALAR"}"#,
        ],
        rest: LISTED,
        moves: false,
    },
    Condition {
        accessors: &[
            MANY,
            r#"{"bufferView":2,"byteOffset":15,"componentType":5121,"count":3,"type":"SCALAR"}"#,
        ],
        rest: LISTED,
        moves: true,
    },
    Condition {
        accessors: &[
            MANY,
            r#"{"bufferView":2,"byteOffset":12,"componentType":5121,"count":3,"type":"SCALAR"}"#,
        ],
        rest: LISTED,
        moves: false,
    },
    Condition {
        accessors: &[
            MANY,
            r#"{"bufferView":2,"byteOffset":18,"componentType":5123,"count":3,"type":"SCALAR"}"#,
        ],
        rest: LISTED,
        moves: true,
    },
    // users of a list
    Condition {
        accessors: &[COLUMN, LIST, OTHER, LIST],
        rest: r#""meshes":[{"primitives":[{"attributes":{"POSITION":0},"indices":1},{"attributes":{"_A":0},"indices":1},{"attributes":{"POSITION":2},"indices":3}]}]"#,
        moves: true,
    },
    Condition {
        accessors: &[COLUMN, LIST, OTHER],
        rest: r#""meshes":[{"primitives":[{"attributes":{"POSITION":0},"indices":1},{"attributes":{"POSITION":2},"indices":1}]}]"#,
        moves: false,
    },
    Condition {
        accessors: &[COLUMN, LIST, OTHER],
        rest: r#""meshes":[{"primitives":[{"attributes":{"POSITION":0},"indices":1},{"mode":0,"attributes":{"POSITION":2},"indices":1}]}]"#,
        moves: false,
    },
    Condition {
        accessors: &[COLUMN, LIST],
        rest: r#""meshes":[{"primitives":[{"attributes":{"POSITION":0},"indices":1}]}],"skins":[{"inverseBindMatrices":1,"joints":[0]}]"#,
        moves: false,
    },
    // whole triangles without indices
    Condition {
        accessors: &[r#"{"bufferView":0,"componentType":5121,"count":3,"type":"VEC4"}"#],
        rest: ALONE,
        moves: true,
    },
    Condition {
        accessors: &[r#"{"bufferView":0,"componentType":5121,"count":4,"type":"VEC4"}"#],
        rest: ALONE,
        moves: false,
    },
    Condition {
        accessors: &[
            r#"{"bufferView":0,"componentType":5121,"count":4,"type":"VEC4"}"#,
            r#"{"bufferView":2,"componentType":5121,"count":3,"type":"SCALAR"}"#,
        ],
        rest: LISTED,
        moves: true,
    },
    // more than 3 * 2^25 corners, with and without those of the vertices
    Condition {
        accessors: &[
            COLUMN,
            r#"{"componentType":5121,"count":100663299,"type":"SCALAR","sparse":{"count":1,"indices":{"bufferView":2,"byteOffset":24,"componentType":5121},"values":{"bufferView":2,"byteOffset":28}}}"#,
        ],
        rest: LISTED,
        moves: false,
    },
    Condition {
        accessors: &[
            COLUMN,
            r#"{"componentType":5121,"count":100663293,"type":"SCALAR","sparse":{"count":1,"indices":{"bufferView":2,"byteOffset":24,"componentType":5121},"values":{"bufferView":2,"byteOffset":28}}}"#,
        ],
        rest: r#""meshes":[{"primitives":[{"attributes":{"POSITION":0},"indices":1},{"attributes":{"POSITION":0}}]}]"#,
        moves: false,
    },
];

#[test]
fn a_group_moves_where_each_condition_holds(rt: HostRuntime) -> Result<(), Fail> {
    for row in &CONDITIONS {
        let (groups, _) = found_in(rt.alloc(), row.accessors, row.rest)?;
        assert!(rt; !groups.is_empty());
        assert_eq!(rt; groups[0].movable, row.moves, "{}", row.rest);
    }
    Ok(())
}

// How many corners a list has, whether six vertices are listed too, and whether a group with both moves.
const CORNERS: [(u32, bool, bool); 4] = [
    (100663296, false, true),
    (100663299, false, false),
    (100663290, true, true),
    (100663293, true, false),
];

#[test]
fn corners_are_counted_up_to_the_most(rt: HostRuntime) {
    for (count, bare, are_few) in CORNERS {
        let list = Accessor {
            view: Some(0),
            offset: 0,
            component: Component::U8,
            shape: Shape::Scalar,
            count,
            sparse: None,
        };
        let group = Group {
            primitives: Numbers::from_vec(Vec::new(rt.alloc())),
            columns: Numbers::from_vec(Vec::new(rt.alloc())),
            lists: Numbers::from_vec(Vec::new(rt.alloc())),
            bare,
            count: 6,
            movable: false,
        };
        assert_eq!(rt; are_few_corners(&[list], &[0], &group), are_few);
    }
}
