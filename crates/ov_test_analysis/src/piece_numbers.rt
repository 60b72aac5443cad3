//! The numbers of the pieces of Even's test. They were worked out by hand from the order of the pieces, and those of
//! more than ten nodes by a script apart from this tree that lists all pieces in order.
use ov_even::{Piece, group_piece_at, group_total, total};
use ov_graph::Graph;

/// How many nodes, how many of them are members of the group, and how many pieces there are.
static TOTALS: [(usize, usize, u64); 11] = [
    (1, 1, 0),
    (2, 2, 1),
    (3, 3, 4),
    (4, 4, 10),
    (10, 10, 165),
    (256, 256, 2_796_160),
    (1024, 1024, 178_956_800),
    (32_768, 32_768, 5_864_062_009_344),
    (3, 2, 2),
    (4, 3, 7),
    (5, 2, 4),
];

/// How many pieces there are for so many nodes and members, at most as many as the nodes.
fn count(nodes: usize, members: usize) -> Option<u64> {
    if nodes > Graph::MOST_OF_ANY || members > nodes {
        return None;
    }
    Some(group_total(nodes, members))
}

#[test]
fn pieces_are_counted(rt: HostRuntime) {
    for (nodes, members, number) in &TOTALS {
        assert_eq!(rt;
            count(*nodes, *members),
            Some(*number),
            "{nodes} nodes {members} members"
        );
    }
    assert_eq!(rt; total(1024), 178_956_800);
}

/// How many nodes and members, a number, and the piece that has it: its level, and its places, the first of which is 0
/// of a fan.
static PIECES: [(usize, usize, u64, u16, u16, u16); 28] = [
    (2, 2, 0, 1, 0, 2),
    (3, 3, 0, 1, 0, 2),
    (3, 3, 1, 1, 0, 3),
    (3, 3, 2, 2, 1, 2),
    (3, 3, 3, 2, 0, 3),
    (4, 4, 0, 1, 0, 2),
    (4, 4, 1, 1, 0, 3),
    (4, 4, 2, 1, 0, 4),
    (4, 4, 3, 2, 1, 2),
    (4, 4, 4, 2, 0, 3),
    (4, 4, 5, 2, 0, 4),
    (4, 4, 6, 3, 1, 2),
    (4, 4, 7, 3, 1, 3),
    (4, 4, 8, 3, 2, 3),
    (4, 4, 9, 3, 0, 4),
    (5, 5, 6, 2, 0, 4),
    (5, 5, 13, 4, 1, 2),
    (10, 10, 28, 4, 1, 2),
    (10, 10, 29, 4, 1, 3),
    (65, 65, 64, 2, 1, 2),
    (65, 65, 65, 2, 0, 3),
    (200, 200, 1658, 9, 1, 6),
    (3, 2, 1, 2, 1, 2),
    (4, 3, 5, 3, 1, 3),
    (5, 2, 1, 2, 1, 2),
    (5, 2, 3, 4, 1, 2),
    (32_768, 32_768, 5_864_062_009_342, 32_767, 32_766, 32_767),
    (32_768, 32_768, 5_864_062_009_343, 32_767, 0, 32_768),
];

/// The piece of this level at these places.
fn named(level: u16, i: u16, j: u16) -> Piece {
    if i == 0 {
        return Piece::Fan { level, j };
    }
    Piece::Pair { level, i, j }
}

/// The piece of this number, if there are so many.
fn piece(nodes: usize, members: usize, number: u64) -> Option<Piece> {
    if nodes > Graph::MOST_OF_ANY || members > nodes {
        return None;
    }
    let count = group_total(nodes, members);
    if number >= count {
        return None;
    }
    Some(group_piece_at(nodes, members, number))
}

#[test]
fn pieces_have_their_numbers(rt: HostRuntime) {
    for (nodes, members, number, level, i, j) in &PIECES {
        assert_eq!(rt;
            piece(*nodes, *members, *number),
            Some(named(*level, *i, *j)),
            "number {number} of {nodes} nodes {members} members"
        );
    }
}
