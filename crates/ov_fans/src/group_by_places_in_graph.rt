ghost use Rattle.std.specs.Prelude.{◌≡◌, ◌↔◌, ◌<◌, ◌≤◌, ◌*◌, length, IsTrue, IfOk};
ghost use Rattle.ov_ids.specs.Members.{Has};
ghost use Rattle.ov_graph.specs.Links.{IsGraph, IsWithinLimit, Linked, IsGroup};
ghost use Rattle.ov_graph.specs.Paths.{node_at};
ghost use Rattle.ov_graph.specs.Row.{word_bits};
ghost use Rattle.ov_flow.specs.Flow.{AreBitsOf};
ghost use Rattle.ov_fans.specs.Pieces.{member_at};

use ov_graph::Graph;
use ov_graph::bit_rows::put;
use ov_ids::{NodeId, OutOfMemory};
use ov_split::PlaceSet;
use std::alloc::Global;
use std::marker::Model;

/// A graph with the members of a group, by their places in it. The places are looked up once. Contracts see the graph
/// and the members.
#[derive(Drop)]
pub(crate) struct SettlerGroup<'g, const W: usize> {
    graph: &'g Graph,
    places: Vec<u16>,
    row: PlaceSet<W>,
}

impl<'g, const W: usize> Model for SettlerGroup<'g, W> {
    ghost use Rattle.std.specs.Prelude.{◌≤◌, ◌*◌, length};
    ghost use Rattle.ov_graph.specs.Row.{word_bits};
    ghost use Rattle.ov_fans.specs.Group.{SettlerState};
    ghost use Rattle.ov_fans.specs.Code.Kept.{group_at, AreMemberPlaces};

    ghost Value = { SettlerState };

    ghost view = { λ m. group_at m.graph.now m.places.items };

    ghost invariant = { λ m. AreMemberPlaces m.graph.now m.places.items m.row.words
        × (length m.graph.now.nodes ≤ word_bits * W) };
}

impl<'g, const W: usize> SettlerGroup<'g, W> {
    /// The members of a group.
    pub(crate) fn new(
        alloc: Global,
        graph: &'g Graph,
        group: &[NodeId],
    ) -> Result<SettlerGroup<'g, W>, OutOfMemory>
        requires group { IsGroup graph.now group.now }
        requires room { length graph.now.nodes ≤ word_bits * W }
        ensures { IfOk result (λ m. m ≡ record { graph = graph.now; members = group.now }) }
    {
        prove!(graph.nodes().len() <= Graph::MOST_OF_ANY);
        let mut places = Vec::with_capacity(alloc, group.len())?;
        let mut row = [0; W];
        for member in group {
            let place = place_among(graph, *member);
            places.push(place as u16)?;
            put(&mut row, place);
        }
        let row = PlaceSet { words: row };
        Ok(SettlerGroup { graph, places, row })
    }

    /// The graph.
    pub(crate) fn graph(&self) -> &'g Graph
        ensures graph { result.now ≡ self.now.graph }
        ensures is_graph { IsGraph self.now.graph }
        ensures within { IsWithinLimit self.now.graph }
        ensures room { length self.now.graph.nodes ≤ word_bits * W }
        ensures group { IsGroup self.now.graph self.now.members }
    {
        self.graph
    }

    /// The row of the places of the members.
    pub(crate) fn row(&self) -> &[u64; W]
        ensures row { AreBitsOf self.now.graph result.now self.now.members }
        ensures is_graph { IsGraph self.now.graph }
        ensures within { IsWithinLimit self.now.graph }
        ensures room { length self.now.graph.nodes ≤ word_bits * W }
        ensures group { IsGroup self.now.graph self.now.members }
    {
        &self.row.words
    }

    /// The place of a member in the graph. The member is named by its place in the group, counted from 1.
    pub(crate) fn place_in_graph(&self, i: u16) -> usize
        requires low { 1 ≤ i }
        requires high { i ≤ length self.now.members }
        ensures below { result < length self.now.graph.nodes }
        ensures there { node_at self.now.graph result ≡ member_at self.now.members i }
        ensures fits { result < word_bits * W }
    {
        self.places[i as usize - 1] as usize
    }

    /// Whether two members are linked. They are named by their places in the group, counted from 1.
    pub(crate) fn linked(&self, i: u16, j: u16) -> bool
        requires low { 1 ≤ i }
        requires high { i ≤ length self.now.members }
        requires other_low { 1 ≤ j }
        requires other_high { j ≤ length self.now.members }
        ensures { IsTrue result ↔ Linked self.now.graph (member_at self.now.members i) (member_at self.now.members j) }
    {
        self.graph
            .linked_at(self.place_in_graph(i), self.place_in_graph(j))
    }

    /// The member at a place in the group, counted from 1.
    pub(crate) fn member(&self, i: u16) -> NodeId
        requires low { 1 ≤ i }
        requires high { i ≤ length self.now.members }
        ensures { result ≡ member_at self.now.members i }
    {
        self.graph.nodes()[self.place_in_graph(i)]
    }
}

/// The place of a node in the graph.
fn place_among(graph: &Graph, a: NodeId) -> usize
    requires { Has graph.now.nodes a }
    ensures below { result < length graph.now.nodes }
    ensures there { node_at graph.now result ≡ a }
{
    match graph.place(a) {
        Some(p) => p,
        None => unreachable!(),
    }
}
