//! The graph of a world's links, made of the views of its live nodes.
ghost use Rattle.std.specs.Prelude.{◌≡◌, ◌≤◌, ◌<◌, ◌↔◌, ◌⊎◌, ℕ, IfOk, OnOk, IsTrue};
ghost use Rattle.std.specs.FinMap as map;
ghost use Rattle.ov_ids.specs.Members.{Has, Ascends, Ordered};
ghost use Rattle.ov_graph.specs.Links.{Precedes, most_of_any_graph};
ghost use Rattle.ov_net.specs.Code.LinkChanges.{Holds};
ghost use Rattle.ov_net.specs.Code.WorldGraph.{IsMutual, IsUpward, AreUpwardOf};

use crate::live_graph_updating::holds;
use crate::member::Member;
use crate::nodes::Nodes;
use ov_graph::{Graph, GraphFault};
use ov_ids::{NodeId, OutOfMemory};
use std::alloc::Global;

/// The graph of the live nodes, of which two are linked if each holds the other in its active view, or out of memory
/// (99). It takes one look at each member of each active view.
pub(crate) fn graph_by_views(alloc: Global, nodes: &Nodes) -> Result<Graph, OutOfMemory>
    requires { map.len nodes.now ≤ most_of_any_graph }
    ensures { IfOk result (IsMutual (map.get nodes.now)) }
{
    let live = nodes.live_ids(alloc)?;
    let links = mutual_links(alloc, nodes, &live)?;
    graph_of(alloc, nodes, &live, &links)
}

/// The graph with these nodes and links, which are the live nodes and their links. Out of memory is its only fault.
fn graph_of(
    alloc: Global,
    nodes: &Nodes,
    live: &[NodeId],
    links: &[(NodeId, NodeId)],
) -> Result<Graph, OutOfMemory>
    requires few { map.len nodes.now ≤ most_of_any_graph }
    requires mutual { IsMutual (map.get nodes.now) (record { nodes = live.now; links = links.now }) }
    ensures { IfOk result (IsMutual (map.get nodes.now)) }
{
    match Graph::large(alloc, live, links) {
        Ok(graph) => Ok(graph),
        Err(fault) => match fault {
            GraphFault::OutOfMemory => Err(OutOfMemory),
            _ => unreachable!(),
        },
    }
}

/// The links of these live nodes with live nodes of higher ids, in order.
fn mutual_links(
    alloc: Global,
    nodes: &Nodes,
    live: &[NodeId],
) -> Result<Vec<(NodeId, NodeId)>, OutOfMemory>
    requires { Ascends live.now }
    ensures ascend { IfOk result (λ links. Ordered Precedes links.items) }
    ensures each { IfOk result (λ links. (l : ℕ × ℕ)
        → Has links.items l ↔ (Has live.now l.0 × IsUpward nodes.now l)) }
{
    let mut links = Vec::new(alloc);
    for node in live {
        add_links(nodes, *node, &mut links)?;
    }
    Ok(links)
}

/// Appends the links of a node with nodes of higher ids. All links before them are of nodes with lower ids.
fn add_links(
    nodes: &Nodes,
    node: NodeId,
    links: &mut Vec<(NodeId, NodeId)>,
) -> Result<(), OutOfMemory>
    requires ascend { Ordered Precedes links.old.items }
    requires below { (l : ℕ × ℕ) → Has links.old.items l → l.0 < node }
    ensures ascend { OnOk result (Ordered Precedes links.new.items) }
    ensures each { OnOk result ((l : ℕ × ℕ)
        → Has links.new.items l ↔ (Has links.old.items l ⊎ ((l.0 ≡ node) × IsUpward nodes.now l))) }
{
    match nodes.get(node) {
        Some(Member::Live(peer)) => add_held(nodes, node, peer.state().active(), links),
        _ => Ok(()),
    }
}

/// Appends the links of a node with those of its active members that have higher ids and hold it too.
fn add_held(
    nodes: &Nodes,
    node: NodeId,
    active: &[NodeId],
    links: &mut Vec<(NodeId, NodeId)>,
) -> Result<(), OutOfMemory>
    requires active { Ascends active.now }
    requires ascend { Ordered Precedes links.old.items }
    requires below { (l : ℕ × ℕ) → Has links.old.items l → l.0 < node }
    ensures ascend { OnOk result (Ordered Precedes links.new.items) }
    ensures each { OnOk result ((l : ℕ × ℕ)
        → Has links.new.items l ↔ (Has links.old.items l ⊎ AreUpwardOf nodes.now node active.now l)) }
{
    for other in active {
        if !is_upward(nodes, node, *other) {
            continue;
        }
        links.push((node, *other))?;
    }
    Ok(())
}

/// Whether another node has a higher id than a node and holds it.
fn is_upward(nodes: &Nodes, node: NodeId, other: NodeId) -> bool
    ensures { IsTrue result ↔ ((node < other) × Holds nodes.now other node) }
{
    node < other && holds(nodes, other, node)
}
