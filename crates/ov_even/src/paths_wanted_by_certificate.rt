//! The pieces whose paths a certificate has, with the paths that were found for them.
ghost use Rattle.std.specs.Prelude.{◌≡◌, ◌↔◌, ◌<◌, ◌≤◌, [], length, map, IsTrue, IfOk};
ghost use Rattle.std.specs.Option.{option_copied};
ghost use Rattle.ov_graph.specs.Links.{IsGroup, AreAllLinked};
ghost use Rattle.ov_fans.specs.Cuts.{AreRightPaths};
ghost use Rattle.ov_fans.specs.Pieces.{IsPiece, IsLinkedPair, level_of};
ghost use Rattle.ov_even.specs.Hauls.{AreRight, Suffice};
ghost use Rattle.ov_even.specs.Levels.{IsLevelDone};
ghost use Rattle.ov_even.specs.Naming.{AreFound, AreUnlinkedPieces, AreWanted};
ghost use Rattle.ov_even.specs.Code.Slots.{HaveSlots};
ghost use Rattle.ov_even.specs.declared.worker_haul.Keeping.TheVariants.{EachPiece as each_piece};

use crate::first_piece_with_cut::first_cut;
use crate::level_path_slots::slots_of;
use crate::level_pieces::{LevelPieces, place_in_level};
use crate::paths_by_ids::FoundPaths;
use crate::worker_haul::Haul;
use ov_cert::are_all_linked;
use ov_fans::{Piece, member};
use ov_flow::PlacePaths;
use ov_graph::Graph;
use ov_ids::{NodeId, OutOfMemory};
use std::alloc::Global;

/// The pieces whose paths the certificate of these hauls has, in order, with the paths that were found for them: no
/// piece, if every two members are linked. Faults: out of memory.
pub fn wanted_paths<'a>(
    alloc: Global,
    graph: &Graph,
    group: &[NodeId],
    hauls: &'a [Haul],
) -> Result<Vec<FoundPaths<'a>>, OutOfMemory>
    requires group { IsGroup graph.now group.now }
    requires suffice { Suffice graph.now group.now hauls.now }
    ensures wanted { IfOk result (λ found. AreWanted graph.now group.now (map (λ f. f.piece) found.items)) }
    ensures found { IfOk result (λ found. AreFound graph.now group.now found.items) }
    ensures none { AreAllLinked graph.now group.now → IfOk result (λ found. found.items ≡ []) }
{
    prove!(graph.nodes().len() <= Graph::MOST_OF_ANY);
    if are_all_linked(graph, group) {
        return Ok(Vec::new(alloc));
    }
    let Some(first) = first_cut(hauls) else {
        unreachable!()
    };
    let level = first.piece.level() as usize - 1;
    Ok(paths_at(alloc, graph, group, level, hauls)?)
}

/// The pieces of a cleared level that are no linked pairs, in order, with the paths that were found for them: no piece,
/// if the level is 0.
fn paths_at<'a>(
    alloc: Global,
    graph: &Graph,
    group: &[NodeId],
    level: usize,
    hauls: &'a [Haul],
) -> Result<Vec<FoundPaths<'a>>, OutOfMemory>
    requires group { IsGroup graph.now group.now }
    requires below { level < length graph.now.nodes }
    requires right { AreRight graph.now group.now hauls.now }
    requires cleared { IsLevelDone each_piece graph.now group.now hauls.now level }
    ensures pieces { IfOk result (λ found.
        AreUnlinkedPieces graph.now group.now level (map (λ f. f.piece) found.items)) }
    ensures found { IfOk result (λ found. AreFound graph.now group.now found.items) }
{
    prove!(graph.nodes().len() <= Graph::MOST_OF_ANY);
    if level == 0 {
        return Ok(Vec::new(alloc));
    }
    let slots = slots_of(alloc, group.len(), level, hauls)?;
    Ok(found_pieces(alloc, graph, group, level, &slots)?)
}

/// The pieces of the level that are no linked pairs, in order, with the paths that were found for them.
fn found_pieces<'a>(
    alloc: Global,
    graph: &Graph,
    group: &[NodeId],
    level: usize,
    slots: &[Option<&'a PlacePaths>],
) -> Result<Vec<FoundPaths<'a>>, OutOfMemory>
    requires group { IsGroup graph.now group.now }
    requires low { 1 ≤ level }
    requires below { level < length graph.now.nodes }
    requires slots { HaveSlots graph.now group.now level (map (λ slot. option_copied slot) slots.now) }
    ensures pieces { IfOk result (λ found.
        AreUnlinkedPieces graph.now group.now level (map (λ f. f.piece) found.items)) }
    ensures found { IfOk result (λ found. AreFound graph.now group.now found.items) }
{
    prove!(graph.nodes().len() <= Graph::MOST_OF_ANY);
    let mut found = Vec::new(alloc);
    for piece in LevelPieces::new(group.len(), level) {
        if is_linked_pair(graph, group, piece) {
            continue;
        }
        let paths = paths_in_slot(graph, group, piece, slots);
        found.push(FoundPaths { piece, paths })?;
    }
    Ok(found)
}

/// Whether a piece is a linked pair.
fn is_linked_pair(graph: &Graph, group: &[NodeId], piece: Piece) -> bool
    requires { IsPiece graph.now group.now piece }
    ensures { IsTrue result ↔ IsLinkedPair graph.now group.now piece }
{
    match piece {
        Piece::Pair { i, j, .. } => graph.linked(member(group, i), member(group, j)),
        Piece::Fan { .. } => false,
    }
}

/// The paths that were found for a piece.
fn paths_in_slot<'a>(
    graph: &Graph,
    group: &[NodeId],
    piece: Piece,
    slots: &[Option<&'a PlacePaths>],
) -> &'a PlacePaths
    requires group { IsGroup graph.now group.now }
    requires piece { IsPiece graph.now group.now piece }
    requires apart { ¬ IsLinkedPair graph.now group.now piece }
    requires slots { HaveSlots graph.now group.now (level_of piece) (map (λ slot. option_copied slot) slots.now) }
    ensures { AreRightPaths graph.now group.now piece result.now }
{
    prove!(graph.nodes().len() <= Graph::MOST_OF_ANY);
    let place = place_in_level(group.len(), piece);
    let slot = slots[place];
    let Some(paths) = slot else { unreachable!() };
    paths
}
