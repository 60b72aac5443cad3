ghost use Rattle.std.specs.Prelude.{◌↔◌, ◌<◌, ◌≤◌, length, IsTrue};
ghost use Rattle.ov_graph.specs.Links.{Linked};
ghost use Rattle.ov_fans.specs.Pieces.{member_at, IsPiece, IsLinkedPair};
ghost use Rattle.ov_fans.specs.Code.Kept.{IsAimFor};
ghost use Rattle.ov_fans.specs.Code.Nets.{net_of, pair_net, fan_net};

use crate::bit_row_nodes::bits_below;
use crate::group_by_places_in_graph::SettlerGroup;
use crate::piece::Piece;

/// The net of a piece, by places: its paths lead from the source to the targets, without the avoided node if there is
/// one.
#[derive(Drop)]
pub(crate) struct Aim<const W: usize> {
    pub(crate) avoided: Option<usize>,
    pub(crate) source: usize,
    pub(crate) targets: [u64; W],
}

/// Whether the piece is a pair of linked members.
pub(crate) fn is_linked_pair<const W: usize>(group: &SettlerGroup<'_, W>, piece: Piece) -> bool
    requires { IsPiece group.now.graph group.now.members piece }
    ensures { IsTrue result ↔ IsLinkedPair group.now.graph group.now.members piece }
{
    match piece {
        Piece::Pair { i, j, .. } => group.linked(i, j),
        Piece::Fan { .. } => false,
    }
}

/// The net of a piece that is no linked pair.
pub(crate) fn aim_for<const W: usize>(group: &SettlerGroup<'_, W>, piece: Piece) -> Aim<W>
    requires piece { IsPiece group.now.graph group.now.members piece }
    requires apart { ¬ IsLinkedPair group.now.graph group.now.members piece }
    ensures { IsAimFor group.now.graph (net_of group.now.graph group.now.members piece) result }
{
    match piece {
        Piece::Pair { i, j, .. } => pair_aim(group, i, j),
        Piece::Fan { j, .. } => fan_aim(group, j),
    }
}

/// The net of a pair: from the member at `i` to the neighbours of the member at `j`, which is avoided.
fn pair_aim<const W: usize>(group: &SettlerGroup<'_, W>, i: u16, j: u16) -> Aim<W>
    requires low { 1 ≤ i }
    requires less { i < j }
    requires high { j ≤ length group.now.members }
    requires apart { ¬ Linked group.now.graph (member_at group.now.members i) (member_at group.now.members j) }
    ensures { IsAimFor group.now.graph (pair_net group.now.graph group.now.members i j) result }
{
    let other = group.place_in_graph(j);
    Aim {
        avoided: Some(other),
        source: group.place_in_graph(i),
        targets: group.graph().neighbour_set(other),
    }
}

/// The net of a fan: from the member at `j` to the members before it.
fn fan_aim<const W: usize>(group: &SettlerGroup<'_, W>, j: u16) -> Aim<W>
    requires low { 1 ≤ j }
    requires high { j ≤ length group.now.members }
    ensures { IsAimFor group.now.graph (fan_net group.now.graph group.now.members j) result }
{
    let source = group.place_in_graph(j);
    Aim {
        avoided: None,
        source,
        targets: bits_below(group.row(), source),
    }
}
