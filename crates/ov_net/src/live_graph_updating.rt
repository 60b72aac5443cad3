//! The graph of a world, changed with the changes of each entry.
ghost use Rattle.std.specs.Prelude.{◌≡◌, ◌≢◌, ◌↔◌, OnOk, OnErr, IsTrue};
ghost use Rattle.ov_graph.specs.Links.{LinkGraph, IsGraph, IsSmall};
ghost use Rattle.ov_graph.specs.Changes.{LosesLink};
ghost use Rattle.ov_net.specs.Code.LinkChanges.{AreChanged, Fit, FitsOne, Gains, HasAllLive, Holds, IsChanged, MayGain};
ghost use Rattle.ov_net.specs.Code.LinkChanges.{newborn_of};
ghost use Rattle.ov_net.specs.declared.journal_entry_and_changes.Change.TheVariants as one;

use crate::event::Event;
use crate::journal_entry_and_changes::Change;
use crate::member::Member;
use crate::nodes::Nodes;
use ov_graph::{Graph, is_member};
use ov_ids::{NodeId, OutOfMemory};

/// Adds the node that is born at an event, if one is. Out of memory leaves the graph as it was.
pub(crate) fn add_newborn(graph: &mut Graph, event: &Event) -> Result<(), OutOfMemory>
    requires graph { IsGraph graph.old }
    requires newborn { MayGain (newborn_of event.now) graph.old }
    ensures ok { OnOk result (Gains (newborn_of event.now) graph.old graph.new) }
    ensures graph { OnOk result (IsGraph graph.new) }
    ensures err { OnErr result (graph.new ≡ graph.old) }
{
    match newborn_of(event) {
        Some(node) => graph.add_node(node),
        None => Ok(()),
    }
}

/// Removes the node that was born at an event, if one was. The graph is what it was before the node was added.
pub(crate) fn remove_newborn(graph: &mut Graph, event: &Event)
    requires { IsSmall graph.old }
    ensures { (g : LinkGraph) → IsGraph g → MayGain (newborn_of event.now) g
        → Gains (newborn_of event.now) g graph.old → graph.new ≡ g }
{
    if let Some(node) = newborn_of(event) {
        graph.remove_node(node);
    }
}

/// The node that is born at an event, if one is.
fn newborn_of(event: &Event) -> Option<NodeId>
    ensures { result ≡ newborn_of event.now }
{
    match event {
        Event::Boot(node, _) => Some(*node),
        _ => None,
    }
}

/// Changes the graph by the changes of an entry, in order. The newborn node is in it already. Nothing is allocated.
pub(crate) fn change_graph(graph: &mut Graph, nodes: &Nodes, changes: &[Change])
    requires graph { IsGraph graph.old }
    requires small { IsSmall graph.old }
    requires live { HasAllLive nodes.now graph.old }
    requires fit { Fit nodes.now changes.now }
    ensures { AreChanged nodes.now changes.now graph.old graph.new }
{
    for change in changes {
        change_once(graph, nodes, *change);
    }
}

/// Changes the graph by one change.
fn change_once(graph: &mut Graph, nodes: &Nodes, change: Change)
    requires graph { IsGraph graph.old }
    requires small { IsSmall graph.old }
    requires live { HasAllLive nodes.now graph.old }
    requires fits { FitsOne nodes.now change }
    ensures change { IsChanged nodes.now change graph.old graph.new }
    ensures graph { IsGraph graph.new }
{
    match change {
        Change::Born(_) => {}
        Change::Up(node, other) => link_if_mutual(graph, nodes, node, other),
        Change::Down(node, other) => unlink_if_linked(graph, node, other),
        Change::Gone(node) => graph.remove_node(node),
    }
}

/// Links a node with another one that came into its active view, if that one holds it too.
fn link_if_mutual(graph: &mut Graph, nodes: &Nodes, node: NodeId, other: NodeId)
    requires graph { IsGraph graph.old }
    requires small { IsSmall graph.old }
    requires live { HasAllLive nodes.now graph.old }
    requires fits { FitsOne nodes.now (one.Up node other) }
    ensures change { IsChanged nodes.now (one.Up node other) graph.old graph.new }
    ensures graph { IsGraph graph.new }
{
    if is_mutual(nodes, node, other) {
        graph.link(node, other);
    }
}

/// Whether another node differs from a node and holds it.
fn is_mutual(nodes: &Nodes, node: NodeId, other: NodeId) -> bool
    ensures { IsTrue result ↔ ((node ≢ other) × Holds nodes.now other node) }
{
    node != other && holds(nodes, other, node)
}

/// Unlinks two nodes, if they are linked.
fn unlink_if_linked(graph: &mut Graph, node: NodeId, other: NodeId)
    requires { IsSmall graph.old }
    ensures change { LosesLink graph.old node other graph.new }
    ensures graph { IsGraph graph.new }
{
    if graph.linked(node, other) {
        graph.unlink(node, other);
    }
}

/// Whether a node is alive and holds another one in its active view.
pub(crate) fn holds(nodes: &Nodes, node: NodeId, other: NodeId) -> bool
    ensures { IsTrue result ↔ Holds nodes.now node other }
{
    match nodes.get(node) {
        Some(Member::Live(peer)) => is_member(peer.state().active(), other),
        _ => false,
    }
}
