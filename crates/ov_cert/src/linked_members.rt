ghost use Rattle.std.specs.Prelude.{◌≡◌, ◌↔◌, [], slice_get, IsTrue};
ghost use Rattle.ov_ids.specs.Members.{Ascends};
ghost use Rattle.ov_graph.specs.Links.{AreAllLinked};
ghost use Rattle.ov_cert.specs.Code.Tests.{unlinked_before, pairs_after};

use crate::path_judging::are_linked;
use ov_graph::Graph;
use ov_ids::NodeId;

/// Whether every two members are linked. The members must ascend.
pub fn are_all_linked(graph: &Graph, group: &[NodeId]) -> bool
    requires { Ascends group.now }
    ensures { IsTrue result ↔ AreAllLinked graph.now group.now }
{
    unlinked_members(graph, group).is_none()
}

/// The first two members that are not linked, in the order of expected pairs.
pub(crate) fn unlinked_members(graph: &Graph, group: &[NodeId]) -> Option<(NodeId, NodeId)>
    ensures { result ≡ slice_get (pairs_after graph.now [] group.now) 0 }
{
    for (place, j) in group.iter().enumerate() {
        if let Some(pair) = unlinked_with(graph, &group[..place], *j) {
            return Some(pair);
        }
    }
    None
}

/// The first of the earlier members that is not linked to `j`, with `j`.
fn unlinked_with(graph: &Graph, earlier: &[NodeId], j: NodeId) -> Option<(NodeId, NodeId)>
    ensures { result ≡ slice_get (unlinked_before graph.now earlier.now j) 0 }
{
    for i in earlier {
        if !are_linked(graph, *i, j) {
            return Some((*i, j));
        }
    }
    None
}
