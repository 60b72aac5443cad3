//! Graphs without some of their nodes, and the members of a group that are left then.
ghost use Rattle.std.specs.Prelude.{◌≡◌, ◌↔◌, ℕ, option_map, IfOk};
ghost use Rattle.std.specs.List.Sorted.{IsNonDecreasing};
ghost use Rattle.ov_ids.specs.Members.{Has};
ghost use Rattle.ov_ids.specs.Sets.{has, without_all};
ghost use Rattle.ov_answers.specs.Fewer.{LosesNodes};
ghost use Rattle.ov_answers.specs.Code.Left.{ids_left, is_left, links_left};

use ov_graph::Graph;
use ov_ids::{NodeId, OutOfMemory};
use std::alloc::{AllocError, Global};

/// The graph without these nodes and their links: what their crash leaves. Ids that are no nodes count for nothing, and
/// the order of ids does not matter. OutOfMemory (99) if an allocation is refused.
pub fn graph_without(alloc: Global, graph: &Graph, gone: &[NodeId]) -> Result<Graph, OutOfMemory>
    ensures { IfOk result (LosesNodes graph.now gone.now) }
{
    let gone = in_order(alloc, gone)?;
    let nodes = ids_left(alloc, graph.nodes(), &gone)?;
    let links = links_left(alloc, graph, &gone)?;
    match Graph::large(alloc, &nodes, &links) {
        Ok(left) => Ok(left),
        Err(_) => Err(OutOfMemory),
    }
}

/// The members of a group without these nodes, in the order of the group. OutOfMemory (99) if an allocation is refused.
pub fn members_left(
    alloc: Global,
    group: Option<&[NodeId]>,
    gone: &[NodeId],
) -> Result<Option<Vec<NodeId>>, OutOfMemory>
    ensures { IfOk result (λ left. option_map (λ ids. ids.items) left
        ≡ option_map (without_all gone.now) (option_map (λ ids. ids.now) group.entry)) }
{
    match group {
        Some(members) => Ok(Some(ids_without(alloc, members, gone)?)),
        None => Ok(None),
    }
}

/// The ids that are not among those that are gone.
fn ids_without(alloc: Global, ids: &[NodeId], gone: &[NodeId]) -> Result<Vec<NodeId>, AllocError>
    ensures { IfOk result (λ left. left.items ≡ without_all gone.now ids.now) }
{
    let gone = in_order(alloc, gone)?;
    let left = ids_left(alloc, ids, &gone)?;
    Ok(left)
}

/// These ids in order.
fn in_order(alloc: Global, ids: &[NodeId]) -> Result<Vec<NodeId>, AllocError>
    ensures rising { IfOk result (λ ordered. IsNonDecreasing ordered.items) }
    ensures same { IfOk result (λ ordered. (x : ℕ) → Has ordered.items x ↔ Has ids.now x) }
{
    let mut ordered = Vec::from_slice(alloc, ids)?;
    ordered.sort_unstable();
    Ok(ordered)
}

/// The ids that are not among those that are gone, which are in order.
fn ids_left(alloc: Global, ids: &[NodeId], gone: &[NodeId]) -> Result<Vec<NodeId>, AllocError>
    requires { IsNonDecreasing gone.now }
    ensures { IfOk result (λ left. left.items ≡ ids_left gone.now ids.now) }
{
    let mut left = Vec::new(alloc);
    for id in ids {
        if !is_among(gone, *id) {
            left.push(*id)?;
        }
    }
    Ok(left)
}

/// The links of a graph that join no node that is gone. These are in order.
fn links_left(
    alloc: Global,
    graph: &Graph,
    gone: &[NodeId],
) -> Result<Vec<(NodeId, NodeId)>, AllocError>
    requires { IsNonDecreasing gone.now }
    ensures { IfOk result (λ left. left.items ≡ links_left gone.now graph.now.links) }
{
    let mut left = Vec::new(alloc);
    for (from, to) in graph.links() {
        if is_left(gone, from, to) {
            left.push((from, to))?;
        }
    }
    Ok(left)
}

/// Whether neither end of a link is among ids that are in order.
fn is_left(gone: &[NodeId], from: NodeId, to: NodeId) -> bool
    requires { IsNonDecreasing gone.now }
    ensures { result ≡ is_left gone.now (from, to) }
{
    !is_among(gone, from) && !is_among(gone, to)
}

/// Whether an id is among ids that are in order, by binary search.
fn is_among(ids: &[NodeId], id: NodeId) -> bool
    requires { IsNonDecreasing ids.now }
    ensures { result ≡ has ids.now id }
{
    ids.binary_search(&id).is_ok()
}
