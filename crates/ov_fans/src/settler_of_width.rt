ghost use Rattle.std.specs.Prelude.{◌≡◌, ◌↔◌, ℕ, ◌<◌, ◌≤◌, ◌*◌, length, List, IfOk, IfSome, IfNone, MatchOption};
ghost use Rattle.ov_graph.specs.Links.{IsGraph, IsGroup};
ghost use Rattle.ov_graph.specs.Row.{word_bits};
ghost use Rattle.ov_split.specs.SplitNetState.{IsFanOf};
ghost use Rattle.ov_flow.specs.Flow.{IsFullBy};
ghost use Rattle.ov_fans.specs.Pieces.{level_of, IsPiece, IsLinkedPair, IsGood};
ghost use Rattle.ov_fans.specs.Cuts.{IsRight, IsFoundFor, IsParted};
ghost use Rattle.ov_fans.specs.Theorems.{IsNoCut};
ghost use Rattle.ov_fans.specs.Code.Nets.{net_of};

use crate::bit_row_nodes::nodes_of_row;
use crate::group_by_places_in_graph::SettlerGroup;
use crate::member_beyond_cut::far_of;
use crate::piece::Piece;
use crate::piece_net::{aim_for, is_linked_pair};
use crate::piece_result::{Found, Parting, Settled};
use crate::short_paths::has_short_paths;
use ov_flow::{CutRows, Flow, FlowRoom};
use ov_graph::Graph;
use ov_ids::{NodeId, OutOfMemory};
use ov_split::SplitNet;
use std::alloc::Global;
use std::marker::Model;

/// Settles pieces of a graph and a group, with sets of places of `W` words. Contracts see the graph and the members.
#[derive(Drop)]
pub(crate) struct WideSettler<'g, const W: usize> {
    group: SettlerGroup<'g, W>,
    flow: Flow<'g, W>,
    alloc: Global,
}

impl<'g, const W: usize> Model for WideSettler<'g, W> {
    ghost use Rattle.std.specs.Prelude.{◌≡◌};
    ghost use Rattle.ov_fans.specs.Group.{SettlerState};

    ghost Value = { SettlerState };

    ghost view = { λ s. s.group };

    ghost invariant = { λ s. s.flow.net.graph ≡ s.group.graph };
}

impl<'g, const W: usize> WideSettler<'g, W> {
    /// Allocates the buffers for a graph and a group. OutOfMemory (99) if an allocation is refused.
    pub(crate) fn new(
        alloc: Global,
        graph: &'g Graph,
        group: &[NodeId],
    ) -> Result<WideSettler<'g, W>, OutOfMemory>
        requires group { IsGroup graph.now group.now }
        requires room { length graph.now.nodes ≤ word_bits * W }
        ensures { IfOk result (λ s. s ≡ record { graph = graph.now; members = group.now }) }
    {
        let group = SettlerGroup::new(alloc, graph, group)?;
        let room = FlowRoom::new(alloc, graph.nodes().len())?;
        Ok(WideSettler::in_room(alloc, group, room))
    }

    /// Settles pieces of this graph and group, with the search's buffers in this room. Nothing here fails, since a
    /// `Result` round wide sets would move all of them on the stack.
    #[inline(never)]
    pub(crate) fn in_room(
        alloc: Global,
        group: SettlerGroup<'g, W>,
        room: FlowRoom<W>,
    ) -> WideSettler<'g, W>
        requires { room ≡ length group.graph.nodes }
        ensures { result ≡ group.entry }
    {
        let net = SplitNet::new(group.graph(), None, group.place_in_graph(1), [0; W]);
        WideSettler {
            group,
            flow: Flow::in_room(net, room),
            alloc,
        }
    }

    /// Settles a piece. See `Settler::settle`.
    #[inline(never)]
    pub(crate) fn settle(&mut self, piece: Piece) -> Result<Settled, OutOfMemory>
        requires { IsPiece self.old.graph self.old.members piece }
        ensures piece { IfOk result (λ s. s.piece ≡ piece) }
        ensures right { IfOk result (λ s. IsRight self.old.graph self.old.members s) }
        ensures good { IfOk result (λ s. IsGood self.old.graph self.old.members piece ↔ IsNoCut s.found) }
        ensures stays { self.new ≡ self.old }
    {
        if is_linked_pair(&self.group, piece) {
            return Ok(Settled {
                piece,
                found: Found::Linked,
            });
        }
        let found = self.sought(piece)?;
        Ok(Settled { piece, found })
    }

    /// The nearest minimum cut of a piece, or None if it is good. See `Settler::nearest_cut`.
    #[inline(never)]
    pub(crate) fn nearest_cut(&mut self, piece: Piece) -> Result<Option<Box<Parting>>, OutOfMemory>
        requires { IsPiece self.old.graph self.old.members piece }
        ensures none { IfOk result (λ cut. IfNone cut (IsGood self.old.graph self.old.members piece)) }
        ensures some { IfOk result (λ cut. IfSome cut (λ c. IsParted self.old.graph self.old.members piece c.value)) }
        ensures stays { self.new ≡ self.old }
    {
        if is_linked_pair(&self.group, piece) || has_short_paths(&self.group, piece) {
            return Ok(None);
        }
        self.cut_sought(piece)
    }

    /// The nearest minimum cut of a piece that is no linked pair, or None if its paths are found. It is a call of its
    /// own, since a call clears the room of all its values at once, and most pieces need no search.
    #[inline(never)]
    fn cut_sought(&mut self, piece: Piece) -> Result<Option<Box<Parting>>, OutOfMemory>
        requires piece { IsPiece self.old.graph self.old.members piece }
        requires apart { ¬ IsLinkedPair self.old.graph self.old.members piece }
        ensures none { IfOk result (λ cut. IfNone cut (IsGood self.old.graph self.old.members piece)) }
        ensures some { IfOk result (λ cut. IfSome cut (λ c. IsParted self.old.graph self.old.members piece c.value)) }
        ensures stays { self.new ≡ self.old }
    {
        match seek(&self.group, &mut self.flow, piece) {
            None => Ok(None),
            Some(rows) => {
                let held = self.flow.held();
                let parting = parting(self.alloc, &self.group, piece, &rows, held)?;
                Ok(Some(parting))
            }
        }
    }

    /// The result of a search for a piece that is no linked pair.
    #[inline(never)]
    fn sought(&mut self, piece: Piece) -> Result<Found, OutOfMemory>
        requires piece { IsPiece self.old.graph self.old.members piece }
        requires apart { ¬ IsLinkedPair self.old.graph self.old.members piece }
        ensures found { IfOk result (λ f. IsFoundFor self.old.graph self.old.members piece f) }
        ensures stays { self.new ≡ self.old }
        ensures graph { IsGraph self.old.graph }
    {
        match seek(&self.group, &mut self.flow, piece) {
            None => Ok(Found::Paths(self.flow.paths()?)),
            Some(rows) => {
                let held = self.flow.held();
                let parting = parting(self.alloc, &self.group, piece, &rows, held)?;
                Ok(Found::Cut(parting))
            }
        }
    }
}

/// Seeks the paths of a piece that is no linked pair. If they are found, the flow holds them, and the result is None.
/// Otherwise the result is the nearest minimum cut of the piece's net.
fn seek<'g, const W: usize>(
    group: &SettlerGroup<'g, W>,
    flow: &mut Flow<'g, W>,
    piece: Piece,
) -> Option<CutRows<W>>
    requires piece { IsPiece group.now.graph group.now.members piece }
    requires apart { ¬ IsLinkedPair group.now.graph group.now.members piece }
    requires graph { flow.old.net.graph ≡ group.now.graph }
    ensures net { flow.new.net ≡ net_of group.now.graph group.now.members piece }
    ensures held { MatchOption result (flow.new.held ≡ level_of piece) (λ rows. (flow.new.held < level_of piece)
        × IsFullBy (net_of group.now.graph group.now.members piece) flow.new.held rows) }
    ensures fan { (paths : List (List ℕ)) × IsFanOf flow.new.net flow.new.held paths }
    ensures stays { flow.new.net.graph ≡ flow.old.net.graph }
    ensures graph { IsGraph group.now.graph }
    ensures group { IsGroup group.now.graph group.now.members }
{
    let aim = aim_for(group, piece);
    let net = SplitNet::new(group.graph(), aim.avoided, aim.source, aim.targets);
    flow.seek(net, piece.level() as usize)
}

/// The parting of a piece, from the rows of its nearest minimum cut and of its side.
fn parting<const W: usize>(
    alloc: Global,
    group: &SettlerGroup<'_, W>,
    piece: Piece,
    rows: &CutRows<W>,
    held: usize,
) -> Result<Box<Parting>, OutOfMemory>
    requires piece { IsPiece group.now.graph group.now.members piece }
    requires full { IsFullBy (net_of group.now.graph group.now.members piece) held rows.now }
    requires few { held < level_of piece }
    ensures { IfOk result (λ c. IsParted group.now.graph group.now.members piece c.value) }
{
    let graph = group.graph();
    let cut = nodes_of_row(alloc, graph, &rows.cut)?;
    let side = nodes_of_row(alloc, graph, &rows.side)?;
    let parting = Parting {
        cut,
        near: group.member(piece.source()),
        far: far_of(group, piece, &rows.cut),
        side,
    };
    Ok(Box::new(alloc, parting)?)
}
