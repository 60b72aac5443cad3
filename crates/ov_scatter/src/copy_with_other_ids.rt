ghost use Rattle.std.specs.Prelude.{◌↔◌, ℕ, IfOk};
ghost use Rattle.ov_graph.specs.Joined.{NoFewerSplit};
ghost use Rattle.ov_graph.specs.Links.{IsGroup};
ghost use Rattle.ov_scatter.specs.Renaming.{AreNewIds};

use crate::scattering::ids_of_group;
use ov_graph::Graph;
use ov_ids::{NodeId, OutOfMemory};
use std::alloc::Global;

/// A copy of a graph and of a group in it, with other ids.
#[derive(Drop)]
pub struct Scattered {
    pub graph: Graph,
    /// The members of the group, by their ids in the copy, ascending.
    pub group: Vec<NodeId>,
    /// For each place of the original graph the id of its node in the copy. Places count the nodes of the original from
    /// 0, in the order of ids.
    pub keys: Vec<NodeId>,
}

impl Scattered {
    /// The members of any group of the original graph, by their ids in the copy, ascending. No fewer than k nodes split
    /// it exactly if no fewer split the group. OutOfMemory (99) if an allocation is refused.
    pub fn group_in_copy(
        &self,
        alloc: Global,
        graph: &Graph,
        group: &[NodeId],
    ) -> Result<Vec<NodeId>, OutOfMemory>
        requires keys { AreNewIds graph.now self.now.keys.items self.now.graph }
        requires group { IsGroup graph.now group.now }
        ensures group { IfOk result (λ ids. IsGroup self.now.graph ids.items) }
        ensures alike { IfOk result (λ ids. (k : ℕ)
            → NoFewerSplit self.now.graph ids.items k ↔ NoFewerSplit graph.now group.now k) }
    {
        prove!(graph.nodes().len() <= Graph::MOST_OF_ANY);
        Ok(ids_of_group(alloc, graph, &self.keys, group)?)
    }
}
