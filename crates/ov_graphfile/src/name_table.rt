ghost use Rattle.std.specs.Prelude.{◌≡◌, ◌<◌, ℕ, List, length, slice_index_or, None, IfSome, IfNone};

use ov_graph::Graph;
use ov_ids::NodeId;
use std::marker::Model;

/// The names of the nodes of a graph. Contracts see the graph, and for each of its nodes, in order, the name if there
/// is one.
#[derive(Drop)]
pub struct Names<'a> {
    graph: &'a Graph,
    told: Vec<Option<&'a [u8]>>,
}

impl<'a> Model for Names<'a> {
    ghost use Rattle.std.specs.Prelude.{◌≡◌, length, map};
    ghost use Rattle.std.specs.Option.{option_copied};
    ghost use Rattle.ov_graphfile.specs.NamesState.{NamesState};

    ghost Value = { NamesState };

    ghost view = { λ n. record { graph = n.graph.now; told = map (λ t. option_copied t) n.told.items } };

    ghost invariant = { λ n. length n.told.items ≡ length n.graph.now.nodes };
}

impl<'a> Names<'a> {
    ghost use Rattle.std.specs.Prelude.{map};
    ghost use Rattle.std.specs.Option.{option_copied};
    ghost use Rattle.ov_graphfile.specs.NamesState.{IsNamed, names_of};

    /// The names of these nodes, each at the place of its node.
    pub fn new(graph: &'a Graph, told: Vec<Option<&'a [u8]>>) -> Names<'a>
        requires { length told.items ≡ length graph.now.nodes }
        ensures { result ≡ names_of graph.now (map (λ t. option_copied t) told.entry.items) }
    {
        Names { graph, told }
    }

    /// The graph.
    pub fn graph(&self) -> &'a Graph
        ensures { result.now ≡ self.now.graph }
    {
        self.graph
    }

    /// The name of a node, if it has one: some bytes, one at least, without a line feed. An id that is no node has
    /// none.
    pub fn name(&self, id: NodeId) -> Option<&'a [u8]>
        ensures some { IfSome result (λ name. IsNamed self.now id name.now) }
        ensures none { IfNone result ((name : List ℕ) → ¬ IsNamed self.now id name) }
    {
        let place = self.graph.place(id)?;
        self.told[place]
    }

    /// The name of the node at a place, if it has one.
    pub(crate) fn name_at(&self, place: usize) -> Option<&'a [u8]>
        requires { place < length self.now.graph.nodes }
        ensures { option_copied result ≡ slice_index_or self.now.told place None }
    {
        self.told[place]
    }
}
