ghost use Rattle.std.specs.Prelude.{◌≡◌, ◌<◌, ◌≤◌, ◌↔◌, Bool, List, None, length, OnOk, IfErr, IfOk, IsTrue};
ghost use Rattle.ov_ids.specs.Members.{Ascends, Has};
ghost use Rattle.ov_net.specs.Net.{LivesAs};
ghost use Rattle.ov_peer.specs.PeerState.{PeerState};
ghost use Rattle.ov_grow.specs.Broadcasts.{AtOnce, BroadcastBy, Broadcasts, BroadcastsBegin, Fire, FireAt};
ghost use Rattle.ov_grow.specs.Broadcasts.{FireAtEach, FiresIfItRuns, IsSender, OneByOne, StandsInFor, TimerRuns};
ghost use Rattle.ov_grow.specs.Broadcasts.{TimersFire};
ghost use Rattle.ov_grow.specs.Faults.{IsFull};
ghost use Rattle.ov_grow.specs.Growth.{IsLive, SomebodyLives};
ghost use Rattle.ov_grow.specs.Code.Standing.{AllLive, Goes, IsNoWay, MayMake, growth_of};

use crate::fault::GrowFault;
use crate::growth_in_progress::Growing;
use crate::phase_rules::PhaseRules;
use ov_ids::{MsgId, NodeId};
use ov_script::Act;

impl Growing {
    /// So many broadcasts, one by one or at once, until no packet is on its way and no timer of their messages runs.
    /// The messages are returned in order. Some node must live.
    pub(crate) fn broadcasts(
        &mut self,
        count: u32,
        rules: &PhaseRules,
    ) -> Result<Vec<MsgId>, GrowFault>
        requires live { SomebodyLives (growth_of self.old) }
        requires made { MayMake count (growth_of self.old) }
        ensures goes { IfOk result (λ ids. Goes (λ s u. Broadcasts rules.now count s ids.items u) self.old self.new) }
        ensures refused { IfErr result
            (IsNoWay (λ s u. (ids : List MsgId) × Broadcasts rules.now count s ids u) self.old) }
        ensures full { IfErr result IsFull }
    {
        if rules.sequential {
            return self.one_by_one(count, rules);
        }
        self.at_once(count, rules)
    }

    /// So many broadcasts one by one. The messages are returned in order. Some node must live.
    fn one_by_one(&mut self, count: u32, rules: &PhaseRules) -> Result<Vec<MsgId>, GrowFault>
        requires live { SomebodyLives (growth_of self.old) }
        requires made { MayMake count (growth_of self.old) }
        ensures goes { IfOk result (λ ids. Goes (λ s u. OneByOne rules.now count s ids.items u) self.old self.new) }
        ensures refused { IfErr result
            (IsNoWay (λ s u. (ids : List MsgId) × OneByOne rules.now count s ids u) self.old) }
        ensures full { IfErr result IsFull }
    {
        let mut messages = Vec::with_capacity(self.alloc, count as usize)?;
        for _broadcast in 0..count {
            let one = self.at_once(1, rules)?;
            messages.extend_from_slice(&one)?;
        }
        Ok(messages)
    }

    /// So many broadcasts at once. The messages are returned in order. Some node must live.
    fn at_once(&mut self, count: u32, rules: &PhaseRules) -> Result<Vec<MsgId>, GrowFault>
        requires live { SomebodyLives (growth_of self.old) }
        requires made { MayMake count (growth_of self.old) }
        ensures goes { IfOk result (λ ids. Goes (λ s u. AtOnce rules.now count s ids.items u) self.old self.new) }
        ensures refused { IfErr result
            (IsNoWay (λ s u. (ids : List MsgId) × AtOnce rules.now count s ids u) self.old) }
        ensures full { IfErr result IsFull }
    {
        let live = self.live()?;
        let messages = self.begin_broadcasts(&live, count, rules.sender)?;
        self.run_out(rules)?;
        self.fire_timers(&messages, rules)?;
        Ok(messages)
    }

    /// So many times one of these nodes broadcasts. The messages are returned in order. All of the nodes must live, and
    /// their ids must ascend.
    fn begin_broadcasts(
        &mut self,
        nodes: &[NodeId],
        count: u32,
        sender: Option<NodeId>,
    ) -> Result<Vec<MsgId>, GrowFault>
        requires some { 0 < length nodes.now }
        requires ascend { Ascends nodes.now }
        requires live { AllLive nodes.now (growth_of self.old) }
        requires made { MayMake count (growth_of self.old) }
        ensures goes { IfOk result
            (λ ids. Goes (λ s u. BroadcastsBegin sender nodes.now count s ids.items u) self.old self.new) }
        ensures refused { IfErr result
            (IsNoWay (λ s u. (ids : List MsgId) × BroadcastsBegin sender nodes.now count s ids u) self.old) }
        ensures full { IfErr result IsFull }
    {
        let mut messages = Vec::with_capacity(self.alloc, count as usize)?;
        for _broadcast in 0..count {
            let node = self.next_sender(nodes, sender);
            messages.push(self.broadcast(node)?)?;
        }
        Ok(messages)
    }

    /// Who of these live nodes makes the next broadcast. There must be one, and their ids must ascend.
    fn next_sender(&mut self, nodes: &[NodeId], sender: Option<NodeId>) -> NodeId
        requires some { 0 < length nodes.now }
        requires ascend { Ascends nodes.now }
        ensures goes { Goes (λ s u. IsSender sender nodes.now s result u) self.old self.new }
        ensures among { Has nodes.now result }
    {
        match sender {
            Some(sender) => stand_in(nodes, sender),
            None => self.chosen_of(nodes),
        }
    }

    /// One of these nodes, of which there must be one.
    fn chosen_of(&mut self, nodes: &[NodeId]) -> NodeId
        requires { 0 < length nodes.now }
        ensures goes { Goes (λ s u. IsSender None nodes.now s result u) self.old self.new }
        ensures among { Has nodes.now result }
    {
        let place = self.choices.one_of(nodes.len());
        nodes[place]
    }

    /// A node that lives broadcasts. The id of the message is returned.
    fn broadcast(&mut self, node: NodeId) -> Result<MsgId, GrowFault>
        requires live { IsLive (growth_of self.old) node }
        requires made { MayMake 1 (growth_of self.old) }
        ensures goes { IfOk result (λ id. Goes (λ s u. BroadcastBy node s id u) self.old self.new) }
        ensures refused { IfErr result (IsNoWay (λ s u. (id : MsgId) × BroadcastBy node s id u) self.old) }
        ensures full { IfErr result IsFull }
    {
        let seq = self.made_by(node);
        self.act(Act::Broadcast(node))?;
        Ok(MsgId { origin: node, seq })
    }

    /// How many broadcasts a live node has made.
    fn made_by(&self, node: NodeId) -> u32
        ensures { (p : PeerState) → LivesAs self.now.recording.core.world.net node p → result ≡ p.tree.made }
    {
        match self.world().peer(node) {
            Some(peer) => peer.made(),
            None => 0,
        }
    }

    /// Timers of these messages fire, again and again, until none runs.
    fn fire_timers(&mut self, messages: &[MsgId], rules: &PhaseRules) -> Result<(), GrowFault>
        ensures goes { OnOk result (Goes (TimersFire rules.now messages.now) self.old self.new) }
        ensures refused { IfErr result (IsNoWay (TimersFire rules.now messages.now) self.old) }
        ensures full { IfErr result IsFull }
    {
        while self.fire(messages)? {
            self.run_out(rules)?;
        }
        Ok(())
    }

    /// Timers of these messages fire once. Whether one did.
    fn fire(&mut self, messages: &[MsgId]) -> Result<bool, GrowFault>
        ensures goes { IfOk result (λ fired. Goes (λ s u. Fire messages.now s fired u) self.old self.new) }
        ensures refused { IfErr result (IsNoWay (λ s u. (fired : Bool) × Fire messages.now s fired u) self.old) }
        ensures full { IfErr result IsFull }
    {
        let live = self.live()?;
        self.fire_at_each(&live, messages)
    }

    /// Timers of these messages fire once at each of these nodes. Whether one did.
    fn fire_at_each(&mut self, nodes: &[NodeId], messages: &[MsgId]) -> Result<bool, GrowFault>
        ensures goes { IfOk result
            (λ fired. Goes (λ s u. FireAtEach nodes.now messages.now s fired u) self.old self.new) }
        ensures refused { IfErr result
            (IsNoWay (λ s u. (fired : Bool) × FireAtEach nodes.now messages.now s fired u) self.old) }
        ensures full { IfErr result IsFull }
    {
        let mut fired = false;
        for node in nodes {
            let more = self.fire_at(*node, messages)?;
            fired |= more;
        }
        Ok(fired)
    }

    /// Timers of these messages fire once at a node. Whether one did.
    fn fire_at(&mut self, node: NodeId, messages: &[MsgId]) -> Result<bool, GrowFault>
        ensures goes { IfOk result (λ fired. Goes (λ s u. FireAt node messages.now s fired u) self.old self.new) }
        ensures refused { IfErr result (IsNoWay (λ s u. (fired : Bool) × FireAt node messages.now s fired u) self.old) }
        ensures full { IfErr result IsFull }
    {
        let mut fired = false;
        for id in messages {
            let more = self.fire_if_it_runs(node, id)?;
            fired |= more;
        }
        Ok(fired)
    }

    /// The timer of a message fires at a node if it runs. Whether it did.
    fn fire_if_it_runs(&mut self, node: NodeId, id: &MsgId) -> Result<bool, GrowFault>
        ensures goes { IfOk result (λ fired. Goes (λ s u. FiresIfItRuns node id.now s fired u) self.old self.new) }
        ensures refused { IfErr result
            (IsNoWay (λ s u. (fired : Bool) × FiresIfItRuns node id.now s fired u) self.old) }
        ensures full { IfErr result IsFull }
    {
        if !self.timer_runs(node, id) {
            return Ok(false);
        }
        self.act(Act::Timer(node, *id))?;
        Ok(true)
    }

    /// Whether the timer of a message runs at a node.
    fn timer_runs(&self, node: NodeId, id: &MsgId) -> bool
        ensures { IsTrue result ↔ TimerRuns (growth_of self.now) node id.now }
    {
        match self.world().peer(node) {
            Some(peer) => peer.has_timer(*id),
            None => false,
        }
    }
}

/// Of these nodes, whose ids ascend, this one, or else the one with the next larger id, or, if there is none, the one
/// with the smallest id. There must be a node.
fn stand_in(nodes: &[NodeId], sender: NodeId) -> NodeId
    requires some { 0 < length nodes.now }
    requires ascend { Ascends nodes.now }
    ensures { StandsInFor sender nodes.now result }
{
    for node in nodes {
        if is_from(*node, sender) {
            return *node;
        }
    }
    nodes[0]
}

/// Whether a node's id is at least that of another.
fn is_from(node: NodeId, other: NodeId) -> bool
    ensures { IsTrue result ↔ (other ≤ node) }
{
    node.number() >= other.number()
}
