ghost use Rattle.std.specs.Prelude.{◌≡◌, OnOk, OnErr};
ghost use Rattle.ov_graph.specs.Links.{IsGraph, IsSmall};
ghost use Rattle.ov_net.specs.Code.LinkChanges.{AreChanged, Fit, Gains, HasAllLive, MayGain, newborn_of};
ghost use Rattle.ov_net.specs.Code.WorldGraph.{AreBothKept, IfKept, opening_graph};
ghost use Rattle.ov_net.specs.declared.kept_graph.KeptGraph.{KeptGraph as KeptGraphOf};

use crate::event::Event;
use crate::journal_entry_and_changes::Change;
use crate::live_graph_updating::{add_newborn, change_graph, remove_newborn};
use crate::nodes::Nodes;
use ov_graph::Graph;
use ov_ids::{OutOfMemory, Scale};
use std::alloc::Global;

/// The graph of a world's links, if the world keeps it from event to event.
#[derive(Drop)]
pub(crate) enum KeptGraph {
    /// It is kept, and changes with each event: in a world of the profile's scale.
    Kept(Graph),
    /// It is not kept: in a large world, where each birth would take time with the number of nodes.
    Unkept,
}

impl KeptGraph {
    /// The graph of a world of this scale in which nothing has happened. Nothing is allocated.
    pub(crate) fn opening(alloc: Global, scale: Scale) -> KeptGraph
        ensures { result ≡ opening_graph scale }
    {
        match scale {
            Scale::Profile => KeptGraph::Kept(Graph::empty(alloc)),
            Scale::Large => KeptGraph::Unkept,
        }
    }

    /// Adds the node that is born at an event, if one is. Out of memory, nothing changes.
    #[inline(always)]
    pub(crate) fn add_newborn(&mut self, event: &Event) -> Result<(), OutOfMemory>
        requires graph { IfKept IsGraph self.old }
        requires newborn { IfKept (MayGain (newborn_of event.now)) self.old }
        ensures ok { OnOk result (AreBothKept (Gains (newborn_of event.now)) self.old self.new) }
        ensures graph { OnOk result (IfKept IsGraph self.new) }
        ensures err { OnErr result (self.new ≡ self.old) }
    {
        match self {
            KeptGraph::Kept(graph) => add_newborn(graph, event),
            KeptGraph::Unkept => Ok(()),
        }
    }

    /// Removes the node that was born at an event, if one was: all is as before it was added.
    pub(crate) fn remove_newborn(&mut self, event: &Event)
        requires { IfKept IsSmall self.old }
        ensures { (kept : KeptGraphOf) → IfKept IsGraph kept → IfKept (MayGain (newborn_of event.now)) kept
            → AreBothKept (Gains (newborn_of event.now)) kept self.old → self.new ≡ kept }
    {
        match self {
            KeptGraph::Kept(graph) => remove_newborn(graph, event),
            KeptGraph::Unkept => {}
        }
    }

    /// Changes the graph by the changes of an entry, in order. The newborn node is in it already. Nothing is allocated.
    #[inline(always)]
    pub(crate) fn change(&mut self, nodes: &Nodes, changes: &[Change])
        requires graph { IfKept IsGraph self.old }
        requires small { IfKept IsSmall self.old }
        requires live { IfKept (HasAllLive nodes.now) self.old }
        requires fit { Fit nodes.now changes.now }
        ensures { AreBothKept (AreChanged nodes.now changes.now) self.old self.new }
    {
        match self {
            KeptGraph::Kept(graph) => change_graph(graph, nodes, changes),
            KeptGraph::Unkept => {}
        }
    }
}
