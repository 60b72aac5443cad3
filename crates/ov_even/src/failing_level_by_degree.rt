//! A level that is not good, known from the links of the members alone.
ghost use Rattle.std.specs.Prelude.{◌<◌, ◌≤◌, length, IsTrue};
ghost use Rattle.ov_graph.specs.Links.{IsGraph, IsWithinLimit, IsGroup, AreAllLinked};
ghost use Rattle.ov_graph.specs.Even.{PassesEven};
ghost use Rattle.ov_even.specs.Code.Narrowing.{HasUnlinked};

use ov_graph::Graph;
use ov_ids::NodeId;

/// A level at which Even's test does not pass: one more than the lowest degree of a member that is not linked to some
/// other member, since its neighbours split the group. It is below the number of nodes.
pub(crate) fn failing_level(graph: &Graph, group: &[NodeId]) -> usize
    requires group { IsGroup graph.now group.now }
    requires apart { ¬ AreAllLinked graph.now group.now }
    ensures low { 1 ≤ result }
    ensures high { result < length graph.now.nodes }
    ensures fails { ¬ PassesEven graph.now group.now result }
    ensures graph { IsGraph graph.now }
    ensures within { IsWithinLimit graph.now }
{
    let mut least = graph.nodes().len() - 2;
    for member in group {
        let degree = graph.neighbours(*member).count();
        if degree < least && has_unlinked(graph, group, *member) {
            least = degree;
        }
    }
    least + 1
}

/// Whether some other member is not linked to this one.
fn has_unlinked(graph: &Graph, group: &[NodeId], member: NodeId) -> bool
    ensures { IsTrue result → HasUnlinked graph.now group.now member }
{
    for other in group {
        if *other != member && !graph.linked(member, *other) {
            return true;
        }
    }
    false
}
