ghost use Rattle.std.specs.Prelude.{◌≡◌, ◌≢◌, ◌≤◌, ◌<◌, ◌+◌, ◌++◌, ◌⊎◌, [], ◌∷◌, ◌↔◌, length, vec_len, vec_capacity};
ghost use Rattle.std.specs.Prelude.{IfOk, IfErr, IfSome, IfNone, IsSome, OnOk, OnErr, IsTrue};
ghost use Rattle.ov_graph.specs.Links.{IsGraph};
ghost use Rattle.ov_ids.specs.declared.world_scale.Scale.TheVariants.{Profile};
ghost use Rattle.ov_peer.specs.PeerState.{PeerState};
ghost use Rattle.ov_net.specs.Code.Effects.{AreEffects, HaveRoom, IsWithin, entry_of, taking};
ghost use Rattle.ov_net.specs.Code.Effects.{NamedCanChange, NamedNodeChanges};
ghost use Rattle.ov_net.specs.Code.LinkChanges.{Gains, MayGain, newborn_of};
ghost use Rattle.ov_net.specs.Code.WorldGraph.{AreBothKept, IfKept};
ghost use Rattle.ov_net.specs.Journal.{AreLinks, AreSameSince, DeliversOnce};
ghost use Rattle.ov_net.specs.declared.journal_entry_and_changes.Entry.{Entry as EntryOf};
ghost use Rattle.ov_net.specs.Limits.{most_packets, longest_of_any};
ghost use Rattle.ov_net.specs.Net.{AreLiveNodes, LivesAs};
ghost use Rattle.ov_net.specs.NetStep.{NetStep};
ghost use Rattle.ov_net.specs.Refusals.{MayHappen, IsBorn, IsRefusal};
ghost use Rattle.ov_net.specs.World.{HasFewNodes, Stands, opening_world};

use crate::event::Event;
use crate::fault::NetFault;
use crate::journal_entry_and_changes::Entry;
use crate::kept_graph::KeptGraph;
use crate::links_by_views::graph_by_views;
use crate::member::Member;
use crate::nodes::Nodes;
use crate::packet::Packet;
use crate::planned_effects::{Effects, NodeChange};
use ov_graph::Graph;
use ov_ids::{NodeId, OutOfMemory, Params};
use ov_lists::BlockList;
use ov_peer::Peer;
use ov_words::Words;
use std::alloc::Global;
use std::marker::Model;

/// The most packets that one step may send. This many places must be free before it.
pub const STEP_PACKETS: usize = 64;

/// The most entries that any journal may have: that of a large world. Chosen here.
pub const LONGEST_JOURNAL: usize = 16_777_216;

/// A world of nodes, and its journal. The scale of its parameters says how large it may grow. Contracts see it as a
/// `WorldState`.
pub struct World {
    pub(crate) alloc: Global,
    pub(crate) params: Params,
    pub(crate) nodes: Nodes,
    pub(crate) packets: BlockList<Packet>,
    pub(crate) journal: Vec<Entry>,
    pub(crate) graph: KeptGraph,
    /// The number of the last entry that told a change, or 0.
    pub(crate) since: u32,
}

impl Drop for World {
    /// Drops the parts. It is written by hand since a call is proved faster than the same drops at each exit.
    fn drop(self) {
        let World {
            alloc: _,
            params: _,
            nodes: _,
            packets: _,
            journal: _,
            graph: _,
            since: _,
        } = self;
    }
}

impl Model for World {
    ghost use Rattle.ov_net.specs.Code.Codes.{world_code, world_of};
    ghost use Rattle.ov_net.specs.World.{WorldState, Stands};

    ghost Value = { WorldState };

    ghost coded = { world_code };

    ghost view = { λ a. world_of a.params a.nodes a.packets.items a.journal.items };

    ghost use Rattle.ov_net.specs.Code.WorldGraph.{KeepsLinks};
    ghost use Rattle.ov_net.specs.Journal.{AreSameSince};

    ghost invariant = { λ a. Stands (world_of a.params a.nodes a.packets.items a.journal.items)
        × KeepsLinks a.params a.journal.items a.graph
        × AreSameSince a.journal.items a.since };
}

impl World {
    /// The world in which nothing has happened. Its nodes will have these parameters. Nothing is allocated.
    pub fn new(alloc: Global, params: Params) -> World
        ensures { result ≡ opening_world params }
    {
        World {
            alloc,
            params,
            nodes: Nodes::new(alloc),
            packets: BlockList::new(alloc),
            journal: Vec::new(alloc),
            graph: KeptGraph::opening(alloc, params.scale()),
            since: 0,
        }
    }

    /// The entries of all events so far, in order. They say who is alive and whom each node holds in its active view.
    /// Each delivery in them is of a broadcast, and no node delivers one twice. At no moment were more nodes alive than
    /// may be born in a world of this scale: 256, or 32,768 in a large one. Contracts also say the invariant of a world
    /// here.
    pub fn journal(&self) -> &[Entry]
        ensures value { result.now ≡ self.now.journal }
        ensures stands { Stands self.now }
        ensures once { DeliversOnce self.now.journal }
        ensures few { HasFewNodes self.now.net.params self.now.journal }
        ensures counted { length result.now ≤ longest_of_any }
    {
        &self.journal
    }

    /// The parameters of the nodes. Their scale says how large the world may grow.
    pub fn params(&self) -> &Params
        ensures { result.now ≡ self.now.net.params }
    {
        &self.params
    }

    /// The graph of the links that both ends hold now, in a world of the profile's scale. Its nodes are the live ones.
    /// Two of them are linked if each holds the other in its active view. Chosen here.
    pub fn graph(&self) -> &Graph
        requires profile { self.now.net.params.scale ≡ Profile }
        ensures { AreLinks self.now.journal (length self.now.journal) result.now }
    {
        match &self.graph {
            KeptGraph::Kept(graph) => graph,
            KeptGraph::Unkept => unreachable!(),
        }
    }

    /// The graph of the links that both ends hold now, if the world keeps it from event to event. A world of the
    /// profile's scale does, and a large one does not.
    pub fn kept_graph(&self) -> Option<&Graph>
        ensures some { IfSome result (λ g. AreLinks self.now.journal (length self.now.journal) g.now) }
        ensures profile { IsSome result ↔ self.now.net.params.scale ≡ Profile }
    {
        match &self.graph {
            KeptGraph::Kept(graph) => Some(graph),
            KeptGraph::Unkept => None,
        }
    }

    /// The graph of the links that both ends hold now, or out of memory (99). It is a copy of the graph that the world
    /// keeps. A large world keeps none, and it is made of the views of all live nodes.
    pub fn links(&self) -> Result<Graph, OutOfMemory>
        ensures { IfOk result (λ g. AreLinks self.now.journal (length self.now.journal) g) }
    {
        match &self.graph {
            KeptGraph::Kept(graph) => graph.copy(),
            KeptGraph::Unkept => graph_by_views(self.alloc, &self.nodes),
        }
    }

    /// The live nodes, ascending, or out of memory (99).
    pub fn live_nodes(&self) -> Result<Vec<NodeId>, OutOfMemory>
        ensures { IfOk result (λ ids. AreLiveNodes self.now.net ids.items) }
    {
        self.nodes.live_ids(self.alloc)
    }

    /// The number of the entry since which the links are the same ones, or 0 if they were never others. Chosen here: it
    /// is the last entry that told a change.
    pub fn links_since(&self) -> u32
        ensures { AreSameSince self.now.journal result }
    {
        self.since
    }

    /// The packets on their way, the oldest first. There are at most 65,536, or 1,048,576 in a large world.
    pub fn packets(&self) -> &BlockList<Packet>
        ensures value { result.now.items ≡ self.now.net.packets }
        ensures few { length self.now.net.packets ≤ most_packets self.now.net.params }
    {
        &self.packets
    }

    /// The node with this id, if it is alive.
    pub fn peer(&self, id: NodeId) -> Option<&Peer>
        ensures some { IfSome result (λ p. LivesAs self.now.net id p.now) }
        ensures none { IfNone result ((p : PeerState) → ¬ LivesAs self.now.net id p) }
    {
        match self.nodes.get(id) {
            Some(Member::Live(peer)) => Some(peer.state()),
            Some(Member::Gone) => None,
            None => None,
        }
    }

    /// Whether a node with this id was born. It may have crashed since.
    pub fn born(&self, id: NodeId) -> bool
        ensures { IsTrue result ↔ IsBorn self.now.net id }
    {
        self.nodes.get(id).is_some()
    }

    /// One event; its random choices are drawn from the words. Returns the event's entry, which goes last in the
    /// journal, or the first applicable refusal (10 to 20), or out of memory (99) if no refusal applies. After a
    /// fault the world is unchanged. Events and refusals are chosen here; a node takes its input by HyParView and
    /// Plumtree.
    pub fn step(&mut self, event: Event, words: &Words) -> Result<Entry, NetFault>
        ensures judged { IfOk result (λ e. MayHappen self.old.net (length self.old.journal) event) }
        ensures step { IfOk result (λ e. NetStep self.old.net event words.now self.new.net e) }
        ensures journal { IfOk result (λ e. self.new.journal ≡ self.old.journal ++ e ∷ []) }
        ensures number { IfOk result (λ e. e.number ≡ length self.new.journal) }
        ensures refused { IfErr result (IsRefusal self.old.net (length self.old.journal) event) }
        ensures err { OnErr result (self.new ≡ self.old) }
    {
        let effects = self.judged_effects(&event, words)?;
        let answer = effects.told(self.alloc, &event, words)?;
        let number = self.apply(event, words, effects)?;
        Ok(answer.entry(number))
    }

    /// Takes one event as `step` does, with the same faults, and copies nothing of its entry, which is the last of the
    /// journal then.
    pub fn take_event(&mut self, event: Event, words: &Words) -> Result<(), NetFault>
        ensures judged { OnOk result (MayHappen self.old.net (length self.old.journal) event) }
        ensures step { OnOk result ((e : EntryOf) × NetStep self.old.net event words.now self.new.net e
            × (self.new.journal ≡ self.old.journal ++ e ∷ []) × (e.number ≡ length self.new.journal)) }
        ensures refused { IfErr result (IsRefusal self.old.net (length self.old.journal) event) }
        ensures err { OnErr result (self.new ≡ self.old) }
    {
        // not by `judged_effects`: effects are large, and each call that hands them on copies them
        self.judge(&event)?;
        match self.effects_of(&event, words) {
            Ok(effects) => {
                self.apply(event, words, effects)?;
                Ok(())
            }
            Err(fault) => Err(NetFault::from(fault)),
        }
    }

    /// The effects of an event, if no refusal applies; else the first applicable one. Nothing changes.
    #[inline(always)]
    fn judged_effects(&self, event: &Event, words: &Words) -> Result<Effects, NetFault>
        ensures judged { IfOk result (λ _. MayHappen self.now.net (length self.now.journal) event.now) }
        ensures effects { IfOk result (AreEffects self.now.net event.now words.now) }
        ensures few { IfOk result (HaveRoom self.now.net) }
        ensures refused { IfErr result (IsRefusal self.now.net (length self.now.journal) event.now) }
    {
        self.judge(event)?;
        Ok(self.effects_of(event, words)?)
    }

    /// Puts the effects of an event into effect, and appends the event's entry, whose number is returned. Out of
    /// memory, nothing changes.
    fn apply(&mut self, event: Event, words: &Words, effects: Effects) -> Result<u32, OutOfMemory>
        requires judged { MayHappen self.old.net (length self.old.journal) event }
        requires effects { AreEffects self.old.net event words.now effects }
        requires few { HaveRoom self.old.net effects }
        ensures step { IfOk result
            (λ n. NetStep self.old.net event words.now self.new.net (entry_of event words.now effects n)) }
        ensures journal { IfOk result
            (λ n. self.new.journal ≡ self.old.journal ++ entry_of event words.now effects n ∷ []) }
        ensures number { IfOk result (λ n. n ≡ length self.new.journal) }
        ensures err { OnErr result (self.new ≡ self.old) }
    {
        let kept = words.keep(self.alloc)?;
        let Effects {
            taken,
            node,
            packets,
            changes,
            delivery,
        } = effects;
        let number = next_number(&self.journal);
        let entry = Entry {
            number,
            event,
            words: kept,
            changes,
            delivery,
        };
        reserve_and_change(
            &mut self.nodes,
            &mut self.graph,
            &mut self.packets,
            &mut self.journal,
            node,
            packets.len(),
            &entry.event,
        )?;
        self.graph.change(&self.nodes, entry.changes.as_slice());
        update_packets(&mut self.packets, taken, packets);
        self.since = since_after(self.since, &entry);
        self.journal.push_reserved(entry);
        Ok(number)
    }
}

/// Reserves room for an entry and `count` packets, adds the node that is born at the event to the graph, and changes
/// the named node, if there are any. Out of memory, nothing changes.
#[inline(always)]
fn reserve_and_change(
    nodes: &mut Nodes,
    graph: &mut KeptGraph,
    packets: &mut BlockList<Packet>,
    journal: &mut Vec<Entry>,
    node: Option<(NodeId, NodeChange)>,
    count: usize,
    event: &Event,
) -> Result<(), OutOfMemory>
    requires change { NamedCanChange node nodes.old }
    requires graph { IfKept IsGraph graph.old }
    requires newborn { IfKept (MayGain (newborn_of event.now)) graph.old }
    ensures ok { OnOk result (NamedNodeChanges node nodes.old nodes.new) }
    ensures gains { OnOk result (AreBothKept (Gains (newborn_of event.now)) graph.old graph.new) }
    ensures graph { OnOk result (IfKept IsGraph graph.new) }
    ensures err { OnErr result (nodes.new ≡ nodes.old) }
    ensures same { OnErr result (graph.new ≡ graph.old) }
    ensures packets { packets.new.items ≡ packets.old.items }
    ensures journal { journal.new.items ≡ journal.old.items }
    ensures places { OnOk result (count ≤ packets.new.room) }
    ensures place { OnOk result (vec_len journal.new < vec_capacity journal.new) }
{
    reserve(packets, journal, count)?;
    change_nodes(nodes, graph, event, node)?;
    Ok(())
}

/// Adds the node that is born at an event to the graph, and changes the named node, if there are any. Out of memory,
/// nothing changes.
#[inline(always)]
fn change_nodes(
    nodes: &mut Nodes,
    graph: &mut KeptGraph,
    event: &Event,
    node: Option<(NodeId, NodeChange)>,
) -> Result<(), OutOfMemory>
    requires change { NamedCanChange node nodes.old }
    requires graph { IfKept IsGraph graph.old }
    requires newborn { IfKept (MayGain (newborn_of event.now)) graph.old }
    ensures ok { OnOk result (NamedNodeChanges node nodes.old nodes.new) }
    ensures gains { OnOk result (AreBothKept (Gains (newborn_of event.now)) graph.old graph.new) }
    ensures graph { OnOk result (IfKept IsGraph graph.new) }
    ensures err { OnErr result (nodes.new ≡ nodes.old) }
    ensures same { OnErr result (graph.new ≡ graph.old) }
{
    graph.add_newborn(event)?;
    match change_named_node(nodes, node) {
        Ok(()) => Ok(()),
        Err(error) => {
            graph.remove_newborn(event);
            Err(error)
        }
    }
}

/// Reserves room for an entry and `count` packets. Packets and journal stay the same.
fn reserve(
    packets: &mut BlockList<Packet>,
    journal: &mut Vec<Entry>,
    count: usize,
) -> Result<(), OutOfMemory>
    ensures packets { packets.new.items ≡ packets.old.items }
    ensures journal { journal.new.items ≡ journal.old.items }
    ensures places { OnOk result (count ≤ packets.new.room) }
    ensures place { OnOk result (vec_len journal.new < vec_capacity journal.new) }
{
    packets.reserve(count)?;
    journal.reserve(1)?;
    Ok(())
}

/// The number of the next entry.
fn next_number(journal: &[Entry]) -> u32
    requires { length journal.now < longest_of_any }
    ensures { result ≡ length journal.now + 1 }
{
    journal.len() as u32 + 1
}

/// The number of the last entry that told a change, after one more entry.
fn since_after(before: u32, entry: &Entry) -> u32
    ensures { ((entry.now.changes ≡ []) × (result ≡ before))
        ⊎ ((entry.now.changes ≢ []) × (result ≡ entry.now.number)) }
{
    if entry.changes.as_slice().is_empty() {
        before
    } else {
        entry.number
    }
}

/// Changes the named node, if there is one. Out of memory, nothing changes.
#[inline(always)]
fn change_named_node(
    nodes: &mut Nodes,
    node: Option<(NodeId, NodeChange)>,
) -> Result<(), OutOfMemory>
    requires { NamedCanChange node nodes.old }
    ensures ok { OnOk result (NamedNodeChanges node nodes.old nodes.new) }
    ensures err { OnErr result (nodes.new ≡ nodes.old) }
{
    match node {
        Some((id, change)) => change.make(nodes, id),
        None => Ok(()),
    }
}

/// Takes out the packet at the named place, if there is one, and appends more packets. There is room for them.
#[inline(always)]
fn update_packets(packets: &mut BlockList<Packet>, taken: Option<usize>, more: Vec<Packet>)
    requires within { IsWithin taken packets.old.items }
    requires room { vec_len more ≤ packets.old.room }
    ensures { packets.new.items ≡ taking taken packets.old.items ++ more.items }
{
    if let Some(place) = taken {
        packets.remove(place);
    }
    packets.append_reserved(more);
}
