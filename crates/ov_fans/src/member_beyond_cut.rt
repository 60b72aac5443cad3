ghost use Rattle.std.specs.Prelude.{ℕ, ◌<◌, ◌≤◌, ◌*◌, length};
ghost use Rattle.ov_ids.specs.Members.{Has};
ghost use Rattle.ov_graph.specs.Row.{picked, word_bits};
ghost use Rattle.ov_fans.specs.Pieces.{level_of, IsPiece};
ghost use Rattle.ov_fans.specs.Cuts.{IsCut, IsFar};
ghost use Rattle.ov_fans.specs.Code.Kept.{AreBitsOfNodes, IsLowestOutside};

use crate::bit_row_nodes::bits_below;
use crate::group_by_places_in_graph::SettlerGroup;
use crate::piece::Piece;
use ov_graph::Graph;
use ov_graph::bit_rows::{first_from, without, words_for};
use ov_ids::NodeId;

/// The lowest target of a piece that is not in a cut. The cut has fewer nodes than the level, so there is one.
pub(crate) fn far_of<const W: usize>(
    group: &SettlerGroup<'_, W>,
    piece: Piece,
    cut: &[u64; W],
) -> NodeId
    requires piece { IsPiece group.now.graph group.now.members piece }
    requires cut { IsCut group.now.graph group.now.members piece (picked cut.now 0 group.now.graph.nodes) }
    requires few { length (picked cut.now 0 group.now.graph.nodes) < level_of piece }
    ensures { IsFar group.now.members piece (picked cut.now 0 group.now.graph.nodes) result }
{
    match piece {
        Piece::Pair { j, .. } => group.member(j),
        Piece::Fan { j, .. } => {
            let before = bits_below(group.row(), group.place_in_graph(j));
            lowest_outside(group.graph(), &before, cut)
        }
    }
}

/// The lowest node of a row that is not in another row. There must be one.
fn lowest_outside<const W: usize>(graph: &Graph, row: &[u64; W], other: &[u64; W]) -> NodeId
    requires row { AreBitsOfNodes graph.now.nodes row.now }
    requires room { length graph.now.nodes ≤ word_bits * W }
    requires some { ¬ ((t : ℕ) → Has (picked row.now 0 graph.now.nodes) t
        → Has (picked other.now 0 graph.now.nodes) t) }
    ensures { IsLowestOutside (picked other.now 0 graph.now.nodes) (picked row.now 0 graph.now.nodes) result }
{
    let nodes = graph.nodes();
    let words = words_for::<W>(nodes.len());
    match first_from(&without(row, other, words), 0, words) {
        Some(place) => nodes[place],
        None => unreachable!(),
    }
}
