//! What sentences count: members of components, and links of nodes.
ghost use Rattle.ov_ids.specs.Members.{Has};

use crate::component_texts::component_at;
use ov_components::Components;
use ov_graph::Graph;
use ov_ids::{NodeId, OutOfMemory};
use std::alloc::Global;

/// The members of the group that are in the component with this node, ascending.
pub(crate) fn members_beside(
    alloc: Global,
    components: &Components,
    group: &[NodeId],
    node: NodeId,
) -> Result<Vec<NodeId>, OutOfMemory> {
    let mut members = Vec::new(alloc);
    for place in 0..components.len() {
        let component = component_at(components, place);
        if is_among(component, node) {
            for id in component {
                if is_among(group, *id) {
                    members.push(*id)?;
                }
            }
        }
    }
    Ok(members)
}

/// How many members of the group are not in the cut.
pub(crate) fn survivors_of(group: &[NodeId], cut: &[NodeId]) -> usize {
    let mut left = group.len();
    for id in cut {
        if is_among(group, *id) {
            left = left.saturating_sub(1);
        }
    }
    left
}

/// The least number of links that a member of the group has, and the members that have it, ascending.
pub(crate) fn least_linked(
    alloc: Global,
    graph: &Graph,
    group: &[NodeId],
) -> Result<(usize, Vec<NodeId>), OutOfMemory> {
    let mut members = Vec::new(alloc);
    let nodes = graph.nodes();
    let mut least = nodes.len();
    for node in nodes {
        if is_among(group, *node) {
            let degree = degree_of(graph, *node);
            if degree < least {
                members.clear();
                least = degree;
            }
            if degree == least {
                members.push(*node)?;
            }
        }
    }
    Ok((least, members))
}

/// Whether an id is among ascending ids, by binary search.
fn is_among(ids: &[NodeId], id: NodeId) -> bool {
    ids.binary_search(&id).is_ok()
}

/// How many links a node has.
fn degree_of(graph: &Graph, node: NodeId) -> usize
    requires { Has graph.now.nodes node }
{
    let mut degree: usize = 0;
    for _ in graph.neighbours(node) {
        degree = degree.saturating_add(1);
    }
    degree
}
