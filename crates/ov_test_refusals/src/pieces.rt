//! Pieces of small graphs, and of a graph that is kept as lists.
ghost use Rattle.std.specs.Prelude.{◌<◌, ◌≤◌, length, IsTrue};
ghost use Rattle.ov_fans.specs.Pieces.{IsPiece};

use Want::{Cut, Linked, Paths};
use ov_fans::{Found, Parting, Piece, Settled, settle};
use ov_graph::{Graph, GraphFault};
use ov_ids::NodeId;
use ov_test_kit::PETERSEN;
use std::alloc::Global;
use std::test::Fail;

/// What a piece is to come to.
#[derive(Clone, Copy)]
enum Want {
    Linked,
    /// As many paths as the level.
    Paths,
    /// The nodes of the cut, near, far, and the side.
    Cut(&'static [u32], u32, u32, &'static [u32]),
}

/// The level of a piece, its places, the first of which is 0 of a fan, and what it is to come to.
type Row = (u16, u16, u16, Want);

/// How many nodes there are from 1 on, the links, and pieces.
type GraphRow = (u32, &'static [(u32, u32)], &'static [Row]);

/// A path of three nodes, alone and beside 1,027 nodes without links, a ring of four, the triangles 1, 2, 3 and 3, 4, 5,
/// and the Petersen graph.
static GRAPHS: [GraphRow; 5] = [
    (3, &[(1, 2), (2, 3)], &[(2, 0, 3, Cut(&[2], 3, 1, &[3]))]),
    (
        1030,
        &[(1, 2), (2, 3)],
        &[(2, 0, 3, Cut(&[2], 3, 1, &[3])), (1, 0, 3, Paths)],
    ),
    (
        4,
        &[(1, 2), (1, 4), (2, 3), (3, 4)],
        &[(3, 1, 3, Cut(&[2, 4], 1, 3, &[1])), (2, 0, 3, Paths)],
    ),
    (
        5,
        &[(1, 2), (1, 3), (2, 3), (3, 4), (3, 5), (4, 5)],
        &[(2, 1, 2, Linked)],
    ),
    (10, &PETERSEN, &[(4, 1, 3, Cut(&[2, 5, 6], 1, 3, &[1]))]),
];

fn graph(alloc: Global, last: u32, pairs: &[(u32, u32)]) -> Result<Graph, GraphFault> {
    let mut nodes = Vec::new(alloc);
    for number in 1..=last {
        nodes.push(NodeId(number))?;
    }
    let mut links = Vec::new(alloc);
    for (low, high) in pairs {
        links.push((NodeId(*low), NodeId(*high)))?;
    }
    Graph::large(alloc, &nodes, &links)
}

/// The piece of this level at these places.
fn piece_of(row: &Row) -> Piece {
    let (level, i, j, _) = *row;
    if i == 0 {
        return Piece::Fan { level, j };
    }
    Piece::Pair { level, i, j }
}

/// A graph has pieces of this level.
fn is_level(graph: &Graph, level: u16) -> bool
    ensures { IsTrue result → (1 ≤ level) × (level < length graph.now.nodes) }
{
    1 <= level && (level as usize) < graph.nodes().len()
}

/// It is a piece for all nodes.
fn is_piece(graph: &Graph, piece: Piece) -> bool
    ensures { IsTrue result → IsPiece graph.now graph.now.nodes piece }
{
    match piece {
        Piece::Pair { level, i, j } => {
            if !is_level(graph, level) || j > level {
                return false;
            }
            1 <= i && i < j && (j as usize) <= graph.nodes().len()
        }
        Piece::Fan { level, j } => {
            if !is_level(graph, level) {
                return false;
            }
            level < j && (j as usize) <= graph.nodes().len()
        }
    }
}

/// The ids have these numbers.
fn are(ids: &[NodeId], numbers: &[u32]) -> bool {
    for (id, number) in ids.iter().zip(numbers) {
        if id.number() != *number {
            return false;
        }
    }
    ids.len() == numbers.len()
}

fn is_parting(parting: &Parting, want: Want) -> bool {
    match want {
        Cut(cut, near, far, side) => {
            (parting.near, parting.far) == (NodeId(near), NodeId(far))
                && are(parting.cut.as_slice(), cut)
                && are(parting.side.as_slice(), side)
        }
        _ => false,
    }
}

/// A piece came to what it is to come to.
fn is_wanted(settled: &Settled, want: Want) -> bool {
    match &settled.found {
        Found::Linked => matches!(want, Linked),
        Found::Paths(paths) => {
            matches!(want, Paths) && paths.count() == settled.piece.level() as usize
        }
        Found::Cut(parting) => is_parting(parting, want),
    }
}

/// A piece comes to what it is to come to, the second time if memory is refused the first time. Tells whether it was
/// refused.
fn is_refused_once(alloc: Global, graph: &Graph, row: &Row) -> Result<bool, Fail> {
    let piece = piece_of(row);
    if !is_piece(graph, piece) {
        return Err("a row without a piece".into());
    }
    match settle(alloc, graph, piece) {
        Ok(first) if is_wanted(&first, row.3) => return Ok(false),
        Ok(_) => return Err("a piece has another answer".into()),
        Err(_) => {}
    }
    match settle(alloc, graph, piece) {
        Ok(again) if is_wanted(&again, row.3) => Ok(true),
        _ => Err("a piece that is settled again has another answer".into()),
    }
}

/// A piece for which memory is refused comes to what it is to come to when it is settled again.
#[test]
fn out_of_memory_changes_no_piece(rt: HostRuntime) -> Result<(), Fail> {
    for (last, links, rows) in &GRAPHS {
        let graph = graph(rt.alloc(), *last, links)?;
        for row in *rows {
            if is_refused_once(rt.alloc(), &graph, row)? {
                let _ = println!(rt; "seen: settle: refused 99, then the row's answer");
            }
        }
    }
    Ok(())
}
