ghost use Rattle.std.specs.Prelude.{◌≡◌, ◌↔◌, IfOk, IfSome, IfNone};
ghost use Rattle.ov_graph.specs.Links.{IsGroup};
ghost use Rattle.ov_fans.specs.Pieces.{IsPiece, IsGood};
ghost use Rattle.ov_fans.specs.Cuts.{IsRight, IsParted};
ghost use Rattle.ov_fans.specs.Theorems.{IsNoCut};

use crate::group_by_places_in_graph::SettlerGroup;
use crate::piece::Piece;
use crate::piece_result::{Parting, Settled};
use crate::settler_of_width::WideSettler;
use ov_flow::FlowRoom;
use ov_graph::Graph;
use ov_graph::bit_rows::{ALL_WORDS, WORDS};
use ov_ids::{NodeId, OutOfMemory};
use std::alloc::Global;
use std::marker::Model;

/// Settles pieces of a graph and a group, one after another. The buffers of the search are allocated once. Contracts
/// see the graph and the members.
#[derive(Drop)]
pub struct Settler<'g> {
    kept: Kept<'g>,
}

/// With sets of places that are as wide as a graph of up to 1,024 nodes asks, or as any graph does. The wide sets take 28
/// KB together, so they lie in a box.
#[derive(Drop)]
enum Kept<'g> {
    Few(WideSettler<'g, WORDS>),
    Many(Box<WideSettler<'g, ALL_WORDS>>),
}

impl<'g> Model for Settler<'g> {
    ghost use Rattle.ov_fans.specs.Group.{SettlerState};

    ghost Value = { SettlerState };

    ghost use Rattle.ov_fans.specs.Code.Dispatched.{settler_of};

    ghost view = { λ s. settler_of s.kept };
}

impl<'g> Settler<'g> {
    /// Allocates the buffers for a graph and a group. OutOfMemory (99) if an allocation is refused.
    pub fn new(
        alloc: Global,
        graph: &'g Graph,
        group: &[NodeId],
    ) -> Result<Settler<'g>, OutOfMemory>
        requires { IsGroup graph.now group.now }
        ensures { IfOk result (λ s. s ≡ record { graph = graph.now; members = group.now }) }
    {
        if graph.nodes().len() <= Graph::MOST_NODES {
            let few = WideSettler::new(alloc, graph, group)?;
            return Ok(Settler {
                kept: Kept::Few(few),
            });
        }
        let many = boxed(alloc, graph, group)?;
        Ok(Settler {
            kept: Kept::Many(many),
        })
    }

    /// Settles a piece. The result is a linked pair or paths if the piece is good, otherwise its nearest minimum cut,
    /// with fewer nodes than its level (Menger, Fund. Math. 10, 1927). Out of memory (99) is the only fault. Graph and
    /// members stay.
    pub fn settle(&mut self, piece: Piece) -> Result<Settled, OutOfMemory>
        requires { IsPiece self.old.graph self.old.members piece }
        ensures piece { IfOk result (λ s. s.piece ≡ piece) }
        ensures right { IfOk result (λ s. IsRight self.old.graph self.old.members s) }
        ensures good { IfOk result (λ s. IsGood self.old.graph self.old.members piece ↔ IsNoCut s.found) }
        ensures stays { self.new ≡ self.old }
    {
        match &mut self.kept {
            Kept::Few(few) => few.settle(piece),
            Kept::Many(many) => many.settle(piece),
        }
    }

    /// The nearest minimum cut of a piece, with its parting, or None if the piece is good (Menger, Fund. Math. 10,
    /// 1927). It is the cut that `settle` finds, but no paths are made. No search is made for a pair with enough common
    /// neighbours, nor for a fan whose source is linked to enough members before it: these are good. Out of memory (99)
    /// is the only fault. Graph and members stay.
    pub fn nearest_cut(&mut self, piece: Piece) -> Result<Option<Box<Parting>>, OutOfMemory>
        requires { IsPiece self.old.graph self.old.members piece }
        ensures none { IfOk result (λ cut. IfNone cut (IsGood self.old.graph self.old.members piece)) }
        ensures some { IfOk result (λ cut. IfSome cut (λ c. IsParted self.old.graph self.old.members piece c.value)) }
        ensures stays { self.new ≡ self.old }
    {
        match &mut self.kept {
            Kept::Few(few) => few.nearest_cut(piece),
            Kept::Many(many) => many.nearest_cut(piece),
        }
    }
}

/// A settler with wide sets of places. It is a call of its own, so that a graph of few nodes does not pay for them on the
/// stack.
#[inline(never)]
fn boxed<'g>(
    alloc: Global,
    graph: &'g Graph,
    group: &[NodeId],
) -> Result<Box<WideSettler<'g, ALL_WORDS>>, OutOfMemory>
    requires { IsGroup graph.now group.now }
    ensures { IfOk result (λ s. s.value ≡ record { graph = graph.now; members = group.now }) }
{
    prove!(graph.nodes().len() <= Graph::MOST_OF_ANY);
    let group = SettlerGroup::new(alloc, graph, group)?;
    let room = FlowRoom::new(alloc, graph.nodes().len())?;
    Ok(Box::new(alloc, WideSettler::in_room(alloc, group, room))?)
}

/// Settles one piece for the group of all nodes, as `settle_group` does.
pub fn settle(alloc: Global, graph: &Graph, piece: Piece) -> Result<Settled, OutOfMemory>
    requires { IsPiece graph.now graph.now.nodes piece }
    ensures piece { IfOk result (λ s. s.piece ≡ piece) }
    ensures right { IfOk result (λ s. IsRight graph.now graph.now.nodes s) }
    ensures good { IfOk result (λ s. IsGood graph.now graph.now.nodes piece ↔ IsNoCut s.found) }
{
    settle_group(alloc, graph, graph.nodes(), piece)
}

/// Settles one piece for a group. The result is a linked pair or paths if the piece is good, otherwise its nearest
/// minimum cut, with fewer nodes than its level (Menger, Fund. Math. 10, 1927). For many pieces a `Settler` allocates
/// its buffers once. Out of memory is the only fault.
pub fn settle_group(
    alloc: Global,
    graph: &Graph,
    group: &[NodeId],
    piece: Piece,
) -> Result<Settled, OutOfMemory>
    requires group { IsGroup graph.now group.now }
    requires piece { IsPiece graph.now group.now piece }
    ensures piece { IfOk result (λ s. s.piece ≡ piece) }
    ensures right { IfOk result (λ s. IsRight graph.now group.now s) }
    ensures good { IfOk result (λ s. IsGood graph.now group.now piece ↔ IsNoCut s.found) }
{
    let mut settler = Settler::new(alloc, graph, group)?;
    settler.settle(piece)
}
