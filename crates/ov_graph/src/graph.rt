ghost use Rattle.std.specs.Prelude.{◌≡◌, ◌≢◌, ◌↔◌, ℕ, ◌<◌, ◌≤◌, ◌*◌, [], length, Some, None, IsTrue};
ghost use Rattle.std.specs.Prelude.{IfOk, IfSome, IfNone, MatchResult, OnOk, OnErr};
ghost use Rattle.ov_graph.specs.Links.{LinkGraph, IsGraph, IsSmall, IsWithinLimit, Linked, AreNeighbours, IsGroup};
ghost use Rattle.ov_graph.specs.Links.{most_nodes, most_of_any_graph, most_of};
ghost use Rattle.ov_graph.specs.Changes.{GainsNode, LosesNode, GainsLink, LosesLink};
ghost use Rattle.ov_graph.specs.Faults.{GraphJudged, LargeGraphJudged, JudgedWithin};
ghost use Rattle.ov_graph.specs.Paths.{node_at};
ghost use Rattle.ov_graph.specs.Row.{HasBit, AreWordsFor, word_bits};
ghost use Rattle.ov_graph.specs.Neighbours.{IsFirst, HoldsNoMore, AreLinkedAt, IsOutside, IsWithin};
ghost use Rattle.ov_graph.specs.declared.fault.GraphFault.TheVariants.{OutOfMemory as out_of_memory};
ghost use Rattle.ov_ids.specs.FaultOrder.{IsRefusedBy};
ghost use Rattle.ov_ids.specs.Members.{Has};

use crate::bit_rows::{ALL_WORDS, WORDS};
use crate::fault::GraphFault;
use crate::graph_judging::first_fault;
use crate::link_iterators::{Links, Neighbours};
use crate::list_graph::ListGraph;
use crate::node_places_by_id::{are_nodes, place_of};
use crate::row_graph::RowGraph;
use crate::size_limit::SizeLimit;
use ov_ids::{NodeId, OutOfMemory, is_ascending};
use std::alloc::Global;
use std::marker::Model;

/// A simple undirected graph. Contracts see its nodes and its links, both ascending.
#[derive(Drop)]
pub struct Graph {
    kept: Kept,
}

/// How a graph is kept: as rows of bits, or, if it has more than 1,024 nodes, as lists.
#[derive(Drop)]
enum Kept {
    Rows(RowGraph),
    Lists(ListGraph),
}

impl Model for Graph {
    ghost use Rattle.ov_graph.specs.Links.{LinkGraph};

    ghost Value = { LinkGraph };

    ghost use Rattle.ov_graph.specs.Code.Dispatched.{graph_of, HasItsSize};

    ghost view = { λ g. graph_of g.kept };

    ghost invariant = { λ g. HasItsSize g.kept };
}

impl Graph {
    /// The most nodes that a graph may have which is made by `new`: 1,024.
    pub const MOST_NODES: usize = 64 * WORDS;

    /// The most nodes that any graph may have: 32,768.
    pub const MOST_OF_ANY: usize = 64 * ALL_WORDS;

    /// The graph of these nodes and links, or the first fault. The faults in order: more than 1,024 nodes; a node that
    /// is not above the node before it; then for each link that its second id is not above its first, that its first
    /// or its second id is no node, or that it does not come after the link before it. Out of memory is returned only
    /// if there is no other fault.
    pub fn new(
        alloc: Global,
        nodes: &[NodeId],
        links: &[(NodeId, NodeId)],
    ) -> Result<Graph, GraphFault>
        ensures graph { IfOk result (λ g. g ≡ record { nodes = nodes.now; links = links.now }) }
        ensures is_graph { IfOk result IsGraph }
        ensures small { IfOk result IsSmall }
        ensures judged { MatchResult result (λ _. GraphJudged nodes.now links.now None)
            (IsRefusedBy out_of_memory (GraphJudged nodes.now links.now)) }
    {
        Graph::within(alloc, SizeLimit::Usual, nodes, links)
    }

    /// The graph of these nodes and links, of which there may be 32,768 nodes, or the first fault. The other faults and
    /// their order are those of `new`.
    pub fn large(
        alloc: Global,
        nodes: &[NodeId],
        links: &[(NodeId, NodeId)],
    ) -> Result<Graph, GraphFault>
        ensures graph { IfOk result (λ g. g ≡ record { nodes = nodes.now; links = links.now }) }
        ensures is_graph { IfOk result IsGraph }
        ensures within { IfOk result IsWithinLimit }
        ensures judged { MatchResult result (λ _. LargeGraphJudged nodes.now links.now None)
            (IsRefusedBy out_of_memory (LargeGraphJudged nodes.now links.now)) }
    {
        Graph::within(alloc, SizeLimit::Large, nodes, links)
    }

    /// The graph of these nodes and links, of which there may be as many nodes as the limit says, or the first fault.
    /// The other faults and their order are those of `new`.
    pub fn within(
        alloc: Global,
        limit: SizeLimit,
        nodes: &[NodeId],
        links: &[(NodeId, NodeId)],
    ) -> Result<Graph, GraphFault>
        ensures graph { IfOk result (λ g. g ≡ record { nodes = nodes.now; links = links.now }) }
        ensures is_graph { IfOk result IsGraph }
        ensures within { IfOk result (λ g. length g.nodes ≤ most_of limit) }
        ensures judged { MatchResult result (λ _. JudgedWithin (most_of limit) nodes.now links.now None)
            (IsRefusedBy out_of_memory (JudgedWithin (most_of limit) nodes.now links.now)) }
    {
        if let Some(fault) = first_fault(nodes, links, limit.most()) {
            return Err(fault);
        }
        match Graph::of(alloc, nodes, links) {
            Ok(graph) => Ok(graph),
            Err(_) => Err(GraphFault::OutOfMemory),
        }
    }

    /// The graph of these nodes and links, kept as its size asks.
    fn of(alloc: Global, nodes: &[NodeId], links: &[(NodeId, NodeId)]) -> Result<Graph, OutOfMemory>
        requires graph { IsGraph (record { nodes = nodes.now; links = links.now }) }
        requires few { length nodes.now ≤ most_of_any_graph }
        ensures { IfOk result (λ g. g ≡ record { nodes = nodes.now; links = links.now }) }
    {
        if nodes.len() > Graph::MOST_NODES {
            let lists = ListGraph::of(alloc, nodes, links)?;
            return Ok(Graph {
                kept: Kept::Lists(lists),
            });
        }
        let rows = RowGraph::of(alloc, nodes, links)?;
        Ok(Graph {
            kept: Kept::Rows(rows),
        })
    }

    /// The graph without nodes. Nothing is allocated.
    pub fn empty(alloc: Global) -> Graph
        ensures { result ≡ record { nodes = []; links = [] } }
    {
        Graph {
            kept: Kept::Rows(RowGraph::empty(alloc)),
        }
    }

    /// The nodes, ascending.
    pub fn nodes(&self) -> &[NodeId]
        ensures nodes { result.now ≡ self.now.nodes }
        ensures graph { IsGraph self.now }
        ensures within { IsWithinLimit self.now }
    {
        match &self.kept {
            Kept::Rows(rows) => rows.nodes(),
            Kept::Lists(lists) => lists.nodes(),
        }
    }

    /// The links, ascending, each with its lower node first.
    pub fn links(&self) -> Links<'_>
        ensures links { result ≡ self.now.links }
        ensures graph { IsGraph self.now }
    {
        match &self.kept {
            Kept::Rows(rows) => Links::of_rows(rows.links()),
            Kept::Lists(lists) => Links::of_lists(lists.links()),
        }
    }

    /// Whether two nodes are linked. An id that is no node has no links, and no node is linked to itself.
    pub fn linked(&self, a: NodeId, b: NodeId) -> bool
        ensures linked { IsTrue result ↔ Linked self.now a b }
        ensures graph { IsGraph self.now }
    {
        match (self.place(a), self.place(b)) {
            (Some(p), Some(q)) => self.linked_at(p, q),
            _ => false,
        }
    }

    /// Whether the nodes at two places are linked.
    pub fn linked_at(&self, p: usize, q: usize) -> bool
        requires p { p < length self.now.nodes }
        requires q { q < length self.now.nodes }
        ensures linked { IsTrue result ↔ Linked self.now (node_at self.now p) (node_at self.now q) }
        ensures graph { IsGraph self.now }
    {
        match &self.kept {
            Kept::Rows(rows) => rows.linked_at(p, q),
            Kept::Lists(lists) => lists.linked_at(p, q),
        }
    }

    /// The place of a node, counted from 0, in the order of ids. An id that is no node has none.
    pub fn place(&self, a: NodeId) -> Option<usize>
        ensures some { IfSome result (λ p. (p < length self.now.nodes) × (node_at self.now p ≡ a)) }
        ensures none { IfNone result (¬ Has self.now.nodes a) }
        ensures graph { IsGraph self.now }
        ensures within { IsWithinLimit self.now }
    {
        place_of(self.nodes(), a)
    }

    /// The row of a node: bit `p` is set if it is linked to the node at place `p`.
    pub fn row(&self, a: NodeId) -> &[u64; WORDS]
        requires small { IsSmall self.now }
        requires node { Has self.now.nodes a }
        ensures bits { (p : ℕ) → HasBit result.now p
            ↔ ((p < length self.now.nodes) × Linked self.now a (node_at self.now p)) }
        ensures graph { IsGraph self.now }
    {
        match &self.kept {
            Kept::Rows(rows) => rows.row(a),
            Kept::Lists(_) => unreachable!(),
        }
    }

    /// The row of the node at a place: bit `q` is set if it is linked to the node at place `q`.
    pub fn row_at(&self, p: usize) -> &[u64; WORDS]
        requires small { IsSmall self.now }
        requires place { p < length self.now.nodes }
        ensures bits { (q : ℕ) → HasBit result.now q
            ↔ ((q < length self.now.nodes) × Linked self.now (node_at self.now p) (node_at self.now q)) }
        ensures graph { IsGraph self.now }
    {
        match &self.kept {
            Kept::Rows(rows) => rows.row_at(p),
            Kept::Lists(_) => unreachable!(),
        }
    }

    /// The first place from `after` on of a neighbour of the node at place `p`, outside a set of places. The set is a
    /// row of bits.
    pub fn next_outside<const W: usize>(
        &self,
        p: usize,
        set: &[u64; W],
        after: usize,
    ) -> Option<usize>
        requires p { p < length self.now.nodes }
        requires room { length self.now.nodes ≤ word_bits * W }
        ensures some { IfSome result (IsFirst (IsOutside self.now p set.now) after) }
        ensures none { IfNone result (HoldsNoMore (IsOutside self.now p set.now) after) }
        ensures graph { IsGraph self.now }
    {
        match &self.kept {
            Kept::Rows(rows) => rows.next_outside(p, set, after),
            Kept::Lists(lists) => lists.next_outside(p, set, after),
        }
    }

    /// The first place from `after` on of a neighbour of the node at place `p`, within a set of places. The set is a
    /// row of bits.
    pub fn next_within<const W: usize>(
        &self,
        p: usize,
        set: &[u64; W],
        after: usize,
    ) -> Option<usize>
        requires p { p < length self.now.nodes }
        requires room { length self.now.nodes ≤ word_bits * W }
        ensures some { IfSome result (IsFirst (IsWithin self.now p set.now) after) }
        ensures none { IfNone result (HoldsNoMore (IsWithin self.now p set.now) after) }
        ensures graph { IsGraph self.now }
    {
        match &self.kept {
            Kept::Rows(rows) => rows.next_within(p, set, after),
            Kept::Lists(lists) => lists.next_within(p, set, after),
        }
    }

    /// The set of the places of the neighbours of the node at place `p`, as a row of `W` words of bits.
    pub fn neighbour_set<const W: usize>(&self, p: usize) -> [u64; W]
        requires p { p < length self.now.nodes }
        requires room { length self.now.nodes ≤ word_bits * W }
        ensures set { (q : ℕ) → HasBit result q ↔ AreLinkedAt self.now p q }
        ensures graph { IsGraph self.now }
    {
        match &self.kept {
            Kept::Rows(rows) => rows.neighbour_set(p),
            Kept::Lists(lists) => lists.neighbour_set(p),
        }
    }

    /// How many words of the rows are in use. No row has a bit beyond them.
    pub fn words(&self) -> usize
        requires { IsSmall self.now }
        ensures words { AreWordsFor (length self.now.nodes) result }
        ensures fits { result ≤ WORDS }
    {
        match &self.kept {
            Kept::Rows(rows) => rows.words(),
            Kept::Lists(_) => unreachable!(),
        }
    }

    /// The neighbours of a node, ascending.
    pub fn neighbours(&self, a: NodeId) -> Neighbours<'_>
        requires { Has self.now.nodes a }
        ensures neighbours { AreNeighbours self.now a result }
        ensures graph { IsGraph self.now }
    {
        match &self.kept {
            Kept::Rows(rows) => Neighbours::of_rows(rows.neighbours(a)),
            Kept::Lists(lists) => Neighbours::of_lists(lists.neighbours(a)),
        }
    }

    /// Whether these ids are a group: one or more nodes, ascending.
    pub fn is_group(&self, group: &[NodeId]) -> bool
        ensures { IsTrue result ↔ IsGroup self.now group.now }
    {
        if group.is_empty() {
            return false;
        }
        if !is_ascending(group) {
            return false;
        }
        are_nodes(self.nodes(), group)
    }

    /// Whether two graphs have the same nodes and the same links.
    pub fn is_same(&self, other: &Graph) -> bool
        ensures { IsTrue result ↔ self.now ≡ other.now }
    {
        match (&self.kept, &other.kept) {
            (Kept::Rows(rows), Kept::Rows(others)) => rows.is_same(others),
            (Kept::Lists(lists), Kept::Lists(others)) => lists.is_same(others),
            (Kept::Rows(rows), Kept::Lists(_)) => {
                prove!(rows.nodes().len() <= Graph::MOST_NODES);
                false
            }
            (Kept::Lists(_), Kept::Rows(rows)) => {
                prove!(rows.nodes().len() <= Graph::MOST_NODES);
                false
            }
        }
    }

    /// Adds a node without links. Out of memory (99) leaves the graph as it was.
    pub fn add_node(&mut self, id: NodeId) -> Result<(), OutOfMemory>
        requires stranger { ¬ Has self.old.nodes id }
        requires few { length self.old.nodes < most_nodes }
        ensures ok { OnOk result (GainsNode self.old id self.new) }
        ensures err { OnErr result (self.new ≡ self.old) }
        ensures graph { IsGraph self.new }
    {
        match &mut self.kept {
            Kept::Rows(rows) => rows.add_node(id),
            Kept::Lists(_) => unreachable!(),
        }
    }

    /// Removes a node and its links. Nothing changes if the id is no node. Nothing is allocated.
    pub fn remove_node(&mut self, id: NodeId)
        requires { IsSmall self.old }
        ensures node { LosesNode self.old id self.new }
        ensures graph { IsGraph self.new }
    {
        match &mut self.kept {
            Kept::Rows(rows) => rows.remove_node(id),
            Kept::Lists(_) => unreachable!(),
        }
    }

    /// Links two different nodes. Nothing changes if they are linked already. Nothing is allocated.
    pub fn link(&mut self, a: NodeId, b: NodeId)
        requires small { IsSmall self.old }
        requires a { Has self.old.nodes a }
        requires b { Has self.old.nodes b }
        requires differ { a ≢ b }
        ensures link { GainsLink self.old a b self.new }
        ensures graph { IsGraph self.new }
    {
        match &mut self.kept {
            Kept::Rows(rows) => rows.link(a, b),
            Kept::Lists(_) => unreachable!(),
        }
    }

    /// Removes the link between two different nodes. Nothing changes if they are not linked. Nothing is allocated.
    pub fn unlink(&mut self, a: NodeId, b: NodeId)
        requires small { IsSmall self.old }
        requires a { Has self.old.nodes a }
        requires b { Has self.old.nodes b }
        requires differ { a ≢ b }
        ensures link { LosesLink self.old a b self.new }
        ensures graph { IsGraph self.new }
    {
        match &mut self.kept {
            Kept::Rows(rows) => rows.unlink(a, b),
            Kept::Lists(_) => unreachable!(),
        }
    }

    /// An equal graph. OutOfMemory (99) if an allocation is refused.
    pub fn copy(&self) -> Result<Graph, OutOfMemory>
        ensures { IfOk result (λ g. g ≡ self.now) }
    {
        match &self.kept {
            Kept::Rows(rows) => Ok(Graph {
                kept: Kept::Rows(rows.copy()?),
            }),
            Kept::Lists(lists) => Ok(Graph {
                kept: Kept::Lists(lists.copy()?),
            }),
        }
    }
}
