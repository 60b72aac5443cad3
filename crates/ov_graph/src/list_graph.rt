ghost use Rattle.std.specs.Prelude.{◌≡◌, ◌↔◌, ℕ, ◌<◌, ◌≤◌, ◌*◌, length, IsTrue, IfOk, IfSome, IfNone};
ghost use Rattle.ov_graph.specs.Links.{LinkGraph, IsGraph, IsWithinLimit, Linked, AreNeighbours};
ghost use Rattle.ov_graph.specs.Links.{most_of_any_graph};
ghost use Rattle.ov_graph.specs.Neighbours.{IsFirst, HoldsNoMore, AreLinkedAt, IsOutside, IsWithin};
ghost use Rattle.ov_graph.specs.Paths.{node_at};
ghost use Rattle.ov_graph.specs.Row.{HasBit, word_bits};
ghost use Rattle.ov_ids.specs.Members.{Has};

use crate::id_and_row_equality::{are_equal, have_same_links};
use crate::listed_link_iterators::{ListedLinks, ListedNeighbours};
use crate::listed_neighbour_places::{first_outside_of, first_within_of, set_of};
use crate::node_places_by_id::place_in;
use crate::place_list::PlaceList;
use crate::place_lists_from_links::lists_of;
use ov_ids::{NodeId, OutOfMemory};
use std::alloc::Global;
use std::marker::Model;

/// A graph of any number of nodes up to 32,768, kept as its links, and for each node the places of its neighbours.
/// Contracts see its nodes and its links, both ascending.
#[derive(Drop)]
pub(crate) struct ListGraph {
    nodes: Vec<NodeId>,
    links: Vec<(NodeId, NodeId)>,
    lists: Vec<PlaceList>,
}

impl Model for ListGraph {
    ghost use Rattle.ov_graph.specs.Links.{LinkGraph};
    ghost use Rattle.ov_graph.specs.Code.Listed.{IsListed};

    ghost Value = { LinkGraph };

    ghost view = { λ g. record { nodes = g.nodes.items; links = g.links.items } };

    ghost invariant = { λ g. IsListed g.nodes.items g.links.items g.lists.items };
}

impl ListGraph {
    /// The graph of these nodes and links.
    pub(crate) fn of(
        alloc: Global,
        nodes: &[NodeId],
        links: &[(NodeId, NodeId)],
    ) -> Result<ListGraph, OutOfMemory>
        requires graph { IsGraph (record { nodes = nodes.now; links = links.now }) }
        requires few { length nodes.now ≤ most_of_any_graph }
        ensures { IfOk result (λ g. g ≡ record { nodes = nodes.now; links = links.now }) }
    {
        let lists = lists_of(alloc, nodes, links)?;
        Ok(ListGraph {
            nodes: Vec::from_slice(alloc, nodes)?,
            links: Vec::from_slice(alloc, links)?,
            lists,
        })
    }

    /// The nodes, ascending.
    pub(crate) fn nodes(&self) -> &[NodeId]
        ensures nodes { result.now ≡ self.now.nodes }
        ensures graph { IsGraph self.now }
        ensures within { IsWithinLimit self.now }
    {
        &self.nodes
    }

    /// The links, ascending, each with its lower node first.
    pub(crate) fn links(&self) -> ListedLinks<'_>
        ensures links { result ≡ self.now.links }
        ensures graph { IsGraph self.now }
    {
        ListedLinks::new(&self.links)
    }

    /// Whether the nodes at two places are linked, by binary search.
    pub(crate) fn linked_at(&self, p: usize, q: usize) -> bool
        requires p { p < length self.now.nodes }
        requires q { q < length self.now.nodes }
        ensures linked { IsTrue result ↔ Linked self.now (node_at self.now p) (node_at self.now q) }
        ensures graph { IsGraph self.now }
    {
        self.lists[p].has(q)
    }

    /// The neighbours of a node, ascending.
    pub(crate) fn neighbours(&self, a: NodeId) -> ListedNeighbours<'_>
        requires { Has self.now.nodes a }
        ensures neighbours { AreNeighbours self.now a result }
        ensures graph { IsGraph self.now }
    {
        let p = place_in(&self.nodes, a);
        ListedNeighbours::new(&self.nodes, self.lists[p].as_slice())
    }

    /// The first place from `after` on of a neighbour of the node at place `p`, outside a set of places.
    pub(crate) fn next_outside<const W: usize>(
        &self,
        p: usize,
        set: &[u64; W],
        after: usize,
    ) -> Option<usize>
        requires p { p < length self.now.nodes }
        requires room { length self.now.nodes ≤ word_bits * W }
        ensures some { IfSome result (IsFirst (IsOutside self.now p set.now) after) }
        ensures none { IfNone result (HoldsNoMore (IsOutside self.now p set.now) after) }
        ensures graph { IsGraph self.now }
    {
        first_outside_of(self.lists[p].from(after), set)
    }

    /// The first place from `after` on of a neighbour of the node at place `p`, within a set of places.
    pub(crate) fn next_within<const W: usize>(
        &self,
        p: usize,
        set: &[u64; W],
        after: usize,
    ) -> Option<usize>
        requires p { p < length self.now.nodes }
        requires room { length self.now.nodes ≤ word_bits * W }
        ensures some { IfSome result (IsFirst (IsWithin self.now p set.now) after) }
        ensures none { IfNone result (HoldsNoMore (IsWithin self.now p set.now) after) }
        ensures graph { IsGraph self.now }
    {
        first_within_of(self.lists[p].from(after), set)
    }

    /// The set of the places of the neighbours of the node at place `p`.
    pub(crate) fn neighbour_set<const W: usize>(&self, p: usize) -> [u64; W]
        requires p { p < length self.now.nodes }
        requires room { length self.now.nodes ≤ word_bits * W }
        ensures set { (q : ℕ) → HasBit result q ↔ AreLinkedAt self.now p q }
        ensures graph { IsGraph self.now }
    {
        set_of(self.lists[p].as_slice())
    }

    /// Whether two graphs have the same nodes and the same links.
    pub(crate) fn is_same(&self, other: &ListGraph) -> bool
        ensures { IsTrue result ↔ self.now ≡ other.now }
    {
        if !are_equal(&self.nodes, &other.nodes) {
            return false;
        }
        have_same_links(&self.links, &other.links)
    }

    /// An equal graph. OutOfMemory (99) if an allocation is refused.
    pub(crate) fn copy(&self) -> Result<ListGraph, OutOfMemory>
        ensures { IfOk result (λ g. g ≡ self.now) }
    {
        ListGraph::of(*self.nodes.allocator(), &self.nodes, &self.links)
    }
}
