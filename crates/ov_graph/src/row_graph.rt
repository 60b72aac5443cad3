ghost use Rattle.std.specs.Prelude.{◌≡◌, ◌≢◌, ◌↔◌, ℕ, ◌<◌, ◌≤◌, ◌*◌, [], length, Some, IsTrue};
ghost use Rattle.std.specs.Prelude.{IfOk, IfSome, IfNone, OnOk, OnErr};
ghost use Rattle.ov_graph.specs.Links.{LinkGraph, IsGraph, IsSmall, Linked, AreNeighbours, most_nodes};
ghost use Rattle.ov_graph.specs.Changes.{GainsNode, LosesNode, GainsLink, LosesLink};
ghost use Rattle.ov_graph.specs.Paths.{node_at};
ghost use Rattle.ov_graph.specs.Row.{HasBit, AreWordsFor, word_bits};
ghost use Rattle.ov_graph.specs.Neighbours.{IsFirst, HoldsNoMore, AreLinkedAt, IsOutside, IsWithin};
ghost use Rattle.ov_graph.specs.Code.Kept.{IsMarked};
ghost use Rattle.ov_ids.specs.Members.{Has};

use crate::bit_rows::{Row, WORDS, has, words_for};
use crate::bit_rows_from_links::rows_of;
use crate::changing::{join, part, put_in, take_out};
use crate::id_and_row_equality::{are_equal, have_same_rows};
use crate::neighbour_places::{first_outside, first_within, widened};
use crate::node_places_by_id::{place_in, place_of};
use crate::row_link_iterators::{RowLinks, RowNeighbours};
use ov_ids::{NodeId, OutOfMemory};
use std::alloc::{AllocError, Global};
use std::marker::Model;

/// A graph of at most 1,024 nodes, kept as a row of bits for each node. Contracts see its nodes and its links, both
/// ascending.
#[derive(Drop)]
pub(crate) struct RowGraph {
    nodes: Vec<NodeId>,
    rows: Vec<Row>,
}

impl Model for RowGraph {
    ghost use Rattle.ov_graph.specs.Links.{LinkGraph};
    ghost use Rattle.ov_graph.specs.Code.Kept.{graph_kept, IsKept};

    ghost Value = { LinkGraph };

    ghost view = { λ g. graph_kept g.nodes.items g.rows.items };

    ghost invariant = { λ g. IsKept g.nodes.items g.rows.items };
}

impl RowGraph {
    /// The graph of these nodes and links.
    pub(crate) fn of(
        alloc: Global,
        nodes: &[NodeId],
        links: &[(NodeId, NodeId)],
    ) -> Result<RowGraph, OutOfMemory>
        requires graph { IsGraph (record { nodes = nodes.now; links = links.now }) }
        requires few { length nodes.now ≤ most_nodes }
        ensures { IfOk result (λ g. g ≡ record { nodes = nodes.now; links = links.now }) }
    {
        let (nodes, rows) = kept(alloc, nodes, links)?;
        Ok(RowGraph { nodes, rows })
    }

    /// The graph without nodes. Nothing is allocated.
    pub(crate) fn empty(alloc: Global) -> RowGraph
        ensures { result ≡ record { nodes = []; links = [] } }
    {
        RowGraph {
            nodes: Vec::new(alloc),
            rows: Vec::new(alloc),
        }
    }

    /// The nodes, ascending.
    pub(crate) fn nodes(&self) -> &[NodeId]
        ensures nodes { result.now ≡ self.now.nodes }
        ensures graph { IsGraph self.now }
        ensures small { IsSmall self.now }
    {
        &self.nodes
    }

    /// The links, ascending, each with its lower node first.
    pub(crate) fn links(&self) -> RowLinks<'_>
        ensures links { result ≡ self.now.links }
        ensures graph { IsGraph self.now }
    {
        RowLinks::new(&self.nodes, &self.rows)
    }

    /// Whether the nodes at two places are linked.
    pub(crate) fn linked_at(&self, p: usize, q: usize) -> bool
        requires p { p < length self.now.nodes }
        requires q { q < length self.now.nodes }
        ensures linked { IsTrue result ↔ Linked self.now (node_at self.now p) (node_at self.now q) }
        ensures graph { IsGraph self.now }
    {
        has(&self.rows[p], q)
    }

    /// The row of a node: bit `p` is set if it is linked to the node at place `p`.
    pub(crate) fn row(&self, a: NodeId) -> &[u64; WORDS]
        requires { Has self.now.nodes a }
        ensures bits { (p : ℕ) → HasBit result.now p
            ↔ ((p < length self.now.nodes) × Linked self.now a (node_at self.now p)) }
        ensures graph { IsGraph self.now }
    {
        &self.rows[place_in(&self.nodes, a)]
    }

    /// The row of the node at a place: bit `q` is set if it is linked to the node at place `q`.
    pub(crate) fn row_at(&self, p: usize) -> &[u64; WORDS]
        requires { p < length self.now.nodes }
        ensures bits { (q : ℕ) → HasBit result.now q
            ↔ ((q < length self.now.nodes) × Linked self.now (node_at self.now p) (node_at self.now q)) }
        ensures graph { IsGraph self.now }
    {
        &self.rows[p]
    }

    /// The first place from `after` on of a neighbour of the node at place `p`, outside a set of places.
    pub(crate) fn next_outside<const W: usize>(
        &self,
        p: usize,
        set: &[u64; W],
        after: usize,
    ) -> Option<usize>
        requires p { p < length self.now.nodes }
        requires room { length self.now.nodes ≤ word_bits * W }
        ensures some { IfSome result (IsFirst (IsOutside self.now p set.now) after) }
        ensures none { IfNone result (HoldsNoMore (IsOutside self.now p set.now) after) }
        ensures graph { IsGraph self.now }
    {
        first_outside(self.row_at(p), set, after, self.words())
    }

    /// The first place from `after` on of a neighbour of the node at place `p`, within a set of places.
    pub(crate) fn next_within<const W: usize>(
        &self,
        p: usize,
        set: &[u64; W],
        after: usize,
    ) -> Option<usize>
        requires p { p < length self.now.nodes }
        requires room { length self.now.nodes ≤ word_bits * W }
        ensures some { IfSome result (IsFirst (IsWithin self.now p set.now) after) }
        ensures none { IfNone result (HoldsNoMore (IsWithin self.now p set.now) after) }
        ensures graph { IsGraph self.now }
    {
        first_within(self.row_at(p), set, after, self.words())
    }

    /// The set of the places of the neighbours of the node at place `p`.
    pub(crate) fn neighbour_set<const W: usize>(&self, p: usize) -> [u64; W]
        requires p { p < length self.now.nodes }
        requires room { length self.now.nodes ≤ word_bits * W }
        ensures set { (q : ℕ) → HasBit result q ↔ AreLinkedAt self.now p q }
        ensures graph { IsGraph self.now }
    {
        widened(self.row_at(p), self.words())
    }

    /// How many words of the rows are in use. No row has a bit beyond them.
    pub(crate) fn words(&self) -> usize
        ensures words { AreWordsFor (length self.now.nodes) result }
        ensures fits { result ≤ WORDS }
    {
        words_for::<WORDS>(self.nodes.len())
    }

    /// The neighbours of a node, ascending.
    pub(crate) fn neighbours(&self, a: NodeId) -> RowNeighbours<'_>
        requires { Has self.now.nodes a }
        ensures neighbours { AreNeighbours self.now a result }
        ensures graph { IsGraph self.now }
    {
        RowNeighbours::new(&self.nodes, self.row(a))
    }

    /// Whether two graphs have the same nodes and the same links.
    pub(crate) fn is_same(&self, other: &RowGraph) -> bool
        ensures { IsTrue result ↔ self.now ≡ other.now }
    {
        if !are_equal(&self.nodes, &other.nodes) {
            return false;
        }
        have_same_rows(&self.rows, &other.rows, self.words())
    }

    /// Adds a node without links. Out of memory (99) leaves the graph as it was.
    pub(crate) fn add_node(&mut self, id: NodeId) -> Result<(), OutOfMemory>
        requires stranger { ¬ Has self.old.nodes id }
        requires few { length self.old.nodes < most_nodes }
        ensures ok { OnOk result (GainsNode self.old id self.new) }
        ensures err { OnErr result (self.new ≡ self.old) }
        ensures graph { IsGraph self.new }
    {
        put_in(&mut self.nodes, &mut self.rows, id)
    }

    /// Removes a node and its links. Nothing changes if the id is no node. Nothing is allocated.
    pub(crate) fn remove_node(&mut self, id: NodeId)
        ensures node { LosesNode self.old id self.new }
        ensures graph { IsGraph self.new }
    {
        if let Some(p) = place_of(&self.nodes, id) {
            take_out(&mut self.nodes, &mut self.rows, p);
        }
    }

    /// Links two different nodes. Nothing changes if they are linked already. Nothing is allocated.
    pub(crate) fn link(&mut self, a: NodeId, b: NodeId)
        requires a { Has self.old.nodes a }
        requires b { Has self.old.nodes b }
        requires differ { a ≢ b }
        ensures link { GainsLink self.old a b self.new }
        ensures graph { IsGraph self.new }
    {
        join(&self.nodes, &mut self.rows, a, b);
    }

    /// Removes the link between two different nodes. Nothing changes if they are not linked. Nothing is allocated.
    pub(crate) fn unlink(&mut self, a: NodeId, b: NodeId)
        requires a { Has self.old.nodes a }
        requires b { Has self.old.nodes b }
        requires differ { a ≢ b }
        ensures link { LosesLink self.old a b self.new }
        ensures graph { IsGraph self.new }
    {
        part(&self.nodes, &mut self.rows, a, b);
    }

    /// An equal graph. OutOfMemory (99) if an allocation is refused.
    pub(crate) fn copy(&self) -> Result<RowGraph, OutOfMemory>
        ensures { IfOk result (λ g. g ≡ self.now) }
    {
        Ok(RowGraph {
            nodes: self.nodes.clone()?,
            rows: self.rows.clone()?,
        })
    }
}

fn kept(
    alloc: Global,
    nodes: &[NodeId],
    links: &[(NodeId, NodeId)],
) -> Result<(Vec<NodeId>, Vec<Row>), AllocError>
    requires graph { IsGraph (record { nodes = nodes.now; links = links.now }) }
    requires few { length nodes.now ≤ most_nodes }
    ensures { IfOk result (λ v. (v.0.items ≡ nodes.now) × IsMarked nodes.now links.now v.1.items) }
{
    let kept = Vec::from_slice(alloc, nodes)?;
    let rows = rows_of(alloc, nodes, links)?;
    Ok((kept, rows))
}
