ghost use Rattle.std.specs.Prelude.{◌≡◌, map, IfOk};
ghost use Rattle.ov_graph.specs.Paths.{node_at};
ghost use Rattle.ov_fans.specs.Pieces.{IsPiece, AreAskedPaths, paths_of};
ghost use Rattle.ov_fans.specs.Cuts.{AreRightPaths};

use crate::piece::Piece;
use ov_flow::PlacePaths;
use ov_graph::Graph;
use ov_ids::{NodeId, OutOfMemory};
use ov_lists::Paths;
use std::alloc::Global;

/// The paths of a settled piece by ids. They are those that the piece asks for (Even, SIAM J. Comput. 4, 1975): for a
/// pair from its first member to the other, for a fan from its source to members before it.
pub fn asked_paths(
    alloc: Global,
    graph: &Graph,
    group: &[NodeId],
    piece: Piece,
    paths: &PlacePaths,
) -> Result<Paths, OutOfMemory>
    requires piece { IsPiece graph.now group.now piece }
    requires right { AreRightPaths graph.now group.now piece paths.now }
    ensures asked { IfOk result (λ ps. AreAskedPaths graph.now group.now piece ps) }
    ensures same { IfOk result (λ ps. ps ≡ paths_of group.now piece (map (map (node_at graph.now)) paths.now)) }
{
    match piece {
        Piece::Pair { j, .. } => paths.by_ids(alloc, graph, Some(group[j as usize - 1])),
        Piece::Fan { .. } => paths.by_ids(alloc, graph, None),
    }
}
