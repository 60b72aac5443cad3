//! Pieces of graphs and of groups, and what they come to.
use crate::drawn::{
    Drawn, FIVE_BUT_ONE, ONE_STEP_BACK, PATH_OF_THREE, PETERSEN, ROUND_OF_THREE, ROUND_OF_TWO,
    SQUARE, TWO_STEPS_BACK, TWO_TRIANGLES, graph,
};
use crate::wanted::Ask::{Fan, Pair};
use crate::wanted::Want::{Cut, Linked, Paths, PathsOff};
use crate::wanted::{Row, other_of_group};
use ov_test_kit::ids;
use std::alloc::Global;
use std::test::Fail;

/// Graphs with pieces of the group of all their nodes.
pub(crate) const ALL: [(Drawn, &[Row<'_>]); 6] = [
    (
        PATH_OF_THREE,
        &[(Fan(2, 3), Cut(&[2], 3, 1, &[3])), (Fan(1, 3), Paths)],
    ),
    (
        SQUARE,
        &[
            (Pair(3, 1, 3), Cut(&[2, 4], 1, 3, &[1])),
            (Fan(2, 3), Paths),
            (Fan(3, 4), Cut(&[1, 3], 4, 2, &[4])),
        ],
    ),
    (
        TWO_TRIANGLES,
        &[
            (Pair(2, 1, 2), Linked),
            (Fan(2, 4), Cut(&[3], 4, 1, &[4, 5])),
            (Fan(2, 5), Paths),
            (Fan(3, 5), Cut(&[3, 4], 5, 1, &[5])),
            (Pair(4, 1, 4), Cut(&[3], 1, 4, &[1, 2])),
            (Pair(4, 3, 4), Linked),
            (Fan(2, 3), Paths),
        ],
    ),
    (
        PETERSEN,
        &[
            (Pair(4, 1, 3), Cut(&[2, 5, 6], 1, 3, &[1])),
            (Pair(3, 1, 3), Paths),
            // 4-3, 4-5-1 and 4-9-7-2
            (Fan(3, 4), Paths),
        ],
    ),
    (
        ONE_STEP_BACK,
        &[
            (Pair(2, 1, 2), Paths),
            (Pair(3, 1, 2), Cut(&[3, 5], 1, 2, &[1])),
        ],
    ),
    (
        TWO_STEPS_BACK,
        &[
            (Pair(2, 1, 2), Paths),
            (Pair(3, 1, 2), Cut(&[3, 6], 1, 2, &[1])),
        ],
    ),
];

/// Graphs, members, and pieces of the group of these.
pub(crate) const GROUPS: [(Drawn, &[u32], &[Row<'_>]); 9] = [
    (
        PATH_OF_THREE,
        &[1, 3],
        &[(Pair(2, 1, 2), Cut(&[2], 1, 3, &[1]))],
    ),
    (
        SQUARE,
        &[1, 2, 3],
        &[(Pair(3, 1, 3), Cut(&[2, 4], 1, 3, &[1]))],
    ),
    (
        TWO_TRIANGLES,
        &[1, 5],
        &[
            (Fan(1, 2), Paths),
            (Pair(2, 1, 2), Cut(&[3], 1, 5, &[1, 2])),
        ],
    ),
    (
        TWO_TRIANGLES,
        &[1, 2, 5],
        &[(Fan(2, 3), Cut(&[3], 5, 1, &[4, 5]))],
    ),
    (
        FIVE_BUT_ONE,
        &[1, 2],
        &[
            (Pair(3, 1, 2), Paths),
            (Pair(4, 1, 2), Cut(&[3, 4, 5], 1, 2, &[1])),
        ],
    ),
    (
        ROUND_OF_TWO,
        &[11, 12],
        &[
            (Pair(2, 1, 2), PathsOff(&[2, 3])),
            (Pair(3, 1, 2), Cut(&[1, 5], 11, 12, &[11])),
        ],
    ),
    (
        ROUND_OF_TWO,
        &[4, 10, 11],
        &[(Fan(2, 3), PathsOff(&[2, 3]))],
    ),
    (
        ROUND_OF_THREE,
        &[18, 19],
        &[
            (Pair(3, 1, 2), PathsOff(&[2, 3, 8])),
            (Pair(4, 1, 2), Cut(&[1, 5, 10], 18, 19, &[18])),
        ],
    ),
    (
        ROUND_OF_THREE,
        &[4, 9, 17, 18],
        &[(Fan(3, 4), PathsOff(&[2, 3, 8]))],
    ),
];

fn of_group(
    alloc: Global,
    drawn: Drawn,
    members: &[u32],
    rows: &[Row<'_>],
) -> Result<Option<usize>, Fail> {
    let graph = graph(alloc, drawn)?;
    let group = ids(alloc, members)?;
    Ok(other_of_group(alloc, &graph, group.as_slice(), rows)?)
}

#[test]
fn pieces_of_groups(rt: HostRuntime) -> Result<(), Fail> {
    for (i, (drawn, members, rows)) in GROUPS.iter().enumerate() {
        assert_eq!(rt;
            of_group(rt.alloc(), *drawn, members, rows)?,
            None,
            "in graph {i}"
        );
    }
    Ok(())
}
