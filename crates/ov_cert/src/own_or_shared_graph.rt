ghost use Rattle.std.specs.Prelude.{◌≡◌};
ghost use Rattle.ov_cert.specs.Code.Kept.{graph_held};

use crate::shared_graph::SharedGraph;
use ov_graph::Graph;

/// The graph of a checked certificate: its own, or one that it shares with others.
#[derive(Drop)]
pub(crate) enum HeldGraph {
    Own(Graph),
    Shared(SharedGraph),
}

impl HeldGraph {
    /// The graph.
    pub(crate) fn graph(&self) -> &Graph
        ensures { result.now ≡ graph_held self.now }
    {
        match self {
            HeldGraph::Own(graph) => graph,
            HeldGraph::Shared(graph) => graph,
        }
    }
}
