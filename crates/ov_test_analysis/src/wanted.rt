//! What pieces are to come to, and whether they do.
ghost use Rattle.std.specs.Prelude.{◌≡◌, ◌<◌, ◌≤◌, length, IsTrue};
ghost use Rattle.ov_graph.specs.Links.{IsGroup};
ghost use Rattle.ov_fans.specs.Pieces.{IsPiece};
ghost use Rattle.ov_fans.specs.Cuts.{AreRightPaths, IsRight};

use crate::path_judge::Sought;
use ov_fans::{Found, Parting, Piece, Settled, Settler, asked_paths, settle_group};
use ov_flow::PlacePaths;
use ov_graph::Graph;
use ov_ids::{NodeId, OutOfMemory};
use std::alloc::Global;

/// A piece in numbers: the level, and the places of its members.
#[derive(Clone, Copy)]
pub(crate) enum Ask {
    Pair(u16, u16, u16),
    Fan(u16, u16),
}

/// What a piece is to come to.
#[derive(Clone, Copy)]
pub(crate) enum Want<'a> {
    Linked,
    /// As many paths as the level.
    Paths,
    /// The same, where none of these nodes is on a path.
    PathsOff(&'a [u32]),
    /// The nodes of the cut, near, far, and the side.
    Cut(&'a [u32], u32, u32, &'a [u32]),
}

/// A piece, and what it is to come to.
pub(crate) type Row<'a> = (Ask, Want<'a>);

pub(crate) fn piece_of(ask: Ask) -> Piece {
    match ask {
        Ask::Pair(level, i, j) => Piece::Pair { level, i, j },
        Ask::Fan(level, j) => Piece::Fan { level, j },
    }
}

/// A graph has pieces of this level.
fn is_level(graph: &Graph, level: u16) -> bool
    ensures { IsTrue result → (1 ≤ level) × (level < length graph.now.nodes) }
{
    1 <= level && (level as usize) < graph.nodes().len()
}

pub(crate) fn is_piece(graph: &Graph, group: &[NodeId], piece: Piece) -> bool
    ensures { IsTrue result → IsPiece graph.now group.now piece }
{
    match piece {
        Piece::Pair { level, i, j } => {
            if !is_level(graph, level) || j > level {
                return false;
            }
            1 <= i && i < j && (j as usize) <= group.len()
        }
        Piece::Fan { level, j } => {
            if !is_level(graph, level) {
                return false;
            }
            level < j && (j as usize) <= group.len()
        }
    }
}

/// The ids have these numbers.
pub(crate) fn are_numbered(ids: &[NodeId], numbers: &[u32]) -> bool {
    for (id, number) in ids.iter().zip(numbers) {
        if id.number() != *number {
            return false;
        }
    }
    ids.len() == numbers.len()
}

fn is_cut(parting: &Parting, cut: &[u32], side: &[u32]) -> bool {
    are_numbered(parting.cut.as_slice(), cut) && are_numbered(parting.side.as_slice(), side)
}

fn is_parting(parting: &Parting, want: Want<'_>) -> bool {
    match want {
        Want::Cut(cut, near, far, side) => {
            if parting.near != NodeId(near) || parting.far != NodeId(far) {
                return false;
            }
            is_cut(parting, cut, side)
        }
        _ => false,
    }
}

/// The paths are those that the piece asks for, and meet none of the nodes that they are to miss.
fn are_paths(
    alloc: Global,
    graph: &Graph,
    group: &[NodeId],
    piece: Piece,
    paths: &PlacePaths,
    want: Want<'_>,
) -> Result<bool, OutOfMemory>
    requires piece { IsPiece graph.now group.now piece }
    requires right { AreRightPaths graph.now group.now piece paths.now }
{
    let off = match want {
        Want::Paths => &[],
        Want::PathsOff(off) => off,
        _ => return Ok(false),
    };
    let asked = asked_paths(alloc, graph, group, piece, paths)?;
    match Sought::of(group, piece) {
        Some(sought) if asked.len() == piece.level() as usize => {
            Ok(sought.are_paths(alloc, graph, &asked, off)?)
        }
        _ => Ok(false),
    }
}

/// What a piece came to is what it is to come to.
pub(crate) fn comes_to(
    alloc: Global,
    graph: &Graph,
    group: &[NodeId],
    settled: &Settled,
    want: Want<'_>,
) -> Result<bool, OutOfMemory>
    requires piece { IsPiece graph.now group.now settled.now.piece }
    requires right { IsRight graph.now group.now settled.now }
{
    match &settled.found {
        Found::Linked => Ok(matches!(want, Want::Linked)),
        Found::Paths(paths) => are_paths(alloc, graph, group, settled.piece, paths, want),
        Found::Cut(parting) => Ok(is_parting(parting, want)),
    }
}

/// Settles a piece by `settle_group`. Its result is the wanted one, and it is a piece.
fn is_right_of_group(
    alloc: Global,
    graph: &Graph,
    group: &[NodeId],
    row: &Row<'_>,
) -> Result<bool, OutOfMemory>
    requires { IsGroup graph.now group.now }
{
    let (ask, want) = *row;
    let piece = piece_of(ask);
    if !is_piece(graph, group, piece) {
        return Ok(false);
    }
    let settled = settle_group(alloc, graph, group, piece)?;
    comes_to(alloc, graph, group, &settled, want)
}

/// The same of a piece that a settler of the group settles.
fn is_right_by(
    alloc: Global,
    settler: &mut Settler<'_>,
    graph: &Graph,
    group: &[NodeId],
    row: &Row<'_>,
) -> Result<bool, OutOfMemory>
    requires settler { settler.old ≡ record { graph = graph.now; members = group.now } }
    requires group { IsGroup graph.now group.now }
    ensures { settler.new ≡ settler.old }
{
    let (ask, want) = *row;
    let piece = piece_of(ask);
    if !is_piece(graph, group, piece) {
        return Ok(false);
    }
    let settled = settler.settle(piece)?;
    comes_to(alloc, graph, group, &settled, want)
}

/// The first row whose piece of the group comes to something else, or is none.
pub(crate) fn other_of_group(
    alloc: Global,
    graph: &Graph,
    group: &[NodeId],
    rows: &[Row<'_>],
) -> Result<Option<usize>, OutOfMemory> {
    if !graph.is_group(group) {
        return Ok(Some(0));
    }
    for (i, row) in rows.iter().enumerate() {
        if !is_right_of_group(alloc, graph, group, row)? {
            return Ok(Some(i));
        }
    }
    Ok(None)
}

/// The same of the pieces of the group of all nodes, where one settler settles them in turn.
pub(crate) fn other_in_turn(
    alloc: Global,
    graph: &Graph,
    rows: &[Row<'_>],
) -> Result<Option<usize>, OutOfMemory> {
    let group = graph.nodes();
    if !graph.is_group(group) {
        return Ok(Some(0));
    }
    let mut settler = Settler::new(alloc, graph, group)?;
    for (i, row) in rows.iter().enumerate() {
        if !is_right_by(alloc, &mut settler, graph, group, row)? {
            return Ok(Some(i));
        }
    }
    Ok(None)
}
