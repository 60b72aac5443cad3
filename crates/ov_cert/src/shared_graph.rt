ghost use Rattle.std.specs.Prelude.{◌≡◌, IfOk};

use ov_graph::Graph;
use ov_ids::OutOfMemory;
use std::alloc::Global;
use std::marker::Model;
use std::ops::Deref;
use std::sync::Arc;

/// A graph that several owners share, as snapshots and reports do. Contracts see it as the graph.
#[derive(Drop)]
pub struct SharedGraph {
    graph: Arc<Graph>,
}

impl Model for SharedGraph {
    ghost use Rattle.std.specs.Arc.{arc_value};
    ghost use Rattle.ov_graph.specs.Links.{LinkGraph};

    ghost Value = { LinkGraph };

    ghost view = { λ a. arc_value a.graph };
}

impl SharedGraph {
    /// This graph, which can be shared from now on, or out of memory (99).
    pub fn new(alloc: Global, graph: Graph) -> Result<SharedGraph, OutOfMemory>
        ensures { IfOk result (λ g. g ≡ graph) }
    {
        Ok(SharedGraph {
            graph: Arc::new(alloc, graph)?,
        })
    }

    /// The same graph once more, not copied, or out of memory (99). The kit's `Arc` refuses one more owner only if it
    /// can count no more.
    pub fn share(&self) -> Result<SharedGraph, OutOfMemory>
        ensures { IfOk result (λ g. g ≡ self.now) }
    {
        Ok(SharedGraph {
            graph: Arc::try_clone(&self.graph)?,
        })
    }
}

impl Deref for SharedGraph {
    type Target = Graph;

    ghost deref_gives = { λ g h. h ≡ g };

    fn deref(&self) -> &Graph
        ensures { result.now ≡ self.now }
    {
        &self.graph
    }
}
