//! Pairs that are good by their common neighbours, and fans that are good by the links of their source: no search is
//! needed to see it.
ghost use Rattle.std.specs.Prelude.{◌≤◌, length, IsTrue};
ghost use Rattle.ov_ids.specs.Members.{Has};
ghost use Rattle.ov_graph.specs.Links.{IsGraph, IsGroup, Linked};
ghost use Rattle.ov_graph.specs.Even.{members_below};
ghost use Rattle.ov_fans.specs.Pieces.{member_at, IsPiece, IsGood};
ghost use Rattle.ov_fans.specs.Counts.{IsNumberOf};

use crate::bit_row_nodes::bits_below;
use crate::group_by_places_in_graph::SettlerGroup;
use crate::piece::Piece;
use crate::shared_bit_count::shared_bits;
use ov_graph::bit_rows::words_for;

/// Whether short paths alone make the piece good: for a pair, paths of two links over common neighbours; for a fan,
/// links from its source to members before it. If not, the piece may still be good.
pub(crate) fn has_short_paths<const W: usize>(group: &SettlerGroup<'_, W>, piece: Piece) -> bool
    requires { IsPiece group.now.graph group.now.members piece }
    ensures { IsTrue result → IsGood group.now.graph group.now.members piece }
{
    match piece {
        Piece::Pair { level, i, j } => common_neighbours(group, i, j) >= level as usize,
        Piece::Fan { level, j } => earlier_neighbours(group, j) >= level as usize,
    }
}

/// How many neighbours two members have in common.
fn common_neighbours<const W: usize>(group: &SettlerGroup<'_, W>, i: u16, j: u16) -> usize
    requires low { 1 ≤ i }
    requires high { i ≤ length group.now.members }
    requires other_low { 1 ≤ j }
    requires other_high { j ≤ length group.now.members }
    ensures number { IsNumberOf (λ x. Linked group.now.graph (member_at group.now.members i) x
        × Linked group.now.graph (member_at group.now.members j) x) result }
    ensures graph { IsGraph group.now.graph }
    ensures group { IsGroup group.now.graph group.now.members }
{
    let graph = group.graph();
    let set: [u64; W] = graph.neighbour_set(group.place_in_graph(i));
    let other = graph.neighbour_set(group.place_in_graph(j));
    shared_bits(&set, &other, words_for::<W>(graph.nodes().len()))
}

/// How many members before a member are its neighbours.
fn earlier_neighbours<const W: usize>(group: &SettlerGroup<'_, W>, j: u16) -> usize
    requires low { 1 ≤ j }
    requires high { j ≤ length group.now.members }
    ensures number { IsNumberOf (λ x. Linked group.now.graph (member_at group.now.members j) x
        × Has (members_below group.now.members (member_at group.now.members j)) x) result }
    ensures graph { IsGraph group.now.graph }
{
    let graph = group.graph();
    let source = group.place_in_graph(j);
    let before = bits_below(group.row(), source);
    let set = graph.neighbour_set(source);
    shared_bits(&set, &before, words_for::<W>(graph.nodes().len()))
}
