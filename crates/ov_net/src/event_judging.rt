ghost use Rattle.std.specs.Prelude.{IfOk, IfErr, OnOk, Some, length};
ghost use Rattle.ov_net.specs.Code.Refusals.{fault_in, IsAbsent};
ghost use Rattle.ov_net.specs.Net.{LivesAs};
ghost use Rattle.ov_net.specs.Refusals.{EventJudged, StepJudged, MayHappen, BirthLast, PlacesLast};
ghost use Rattle.ov_net.specs.declared.event.Event.TheVariants.{Boot, Deliver, Lose, Crash};
ghost use Rattle.ov_net.specs.declared.event.Event.TheVariants.{CrashReport, Shuffle, Broadcast, Timer};

use crate::event::Event;
use crate::fault::NetFault;
use crate::member::Member;
use crate::world::{STEP_PACKETS, World};
use ov_ids::{MsgId, NodeId};
use ov_peer::{MOST_BROADCASTS, Peer};
use ov_wire::MOST_PAYLOAD;

impl World {
    /// The first applicable refusal (10 to 20) of an event, but out of memory. Nothing changes. If none applies, the
    /// same event may next end in out of memory (99) only.
    pub fn judge(&self, event: &Event) -> Result<(), NetFault>
        ensures ok { OnOk result (MayHappen self.now.net (length self.now.journal) event.now) }
        ensures err { IfErr result (λ f. StepJudged self.now.net (length self.now.journal) event.now (Some f)) }
    {
        if self.journal.len() >= self.params.scale().most_entries() {
            return Err(NetFault::TooManyEntries);
        }
        self.judge_event(event)
    }

    /// The first applicable refusal of an event, but that the journal is full.
    #[tactic(auto, using(crate::proofs::Steps::Refusing::live_then, crate::proofs::Steps::Refusing::absent_then))]
    fn judge_event(&self, event: &Event) -> Result<(), NetFault>
        ensures { EventJudged self.now.net event.now (fault_in result) }
    {
        match event {
            Event::Boot(node, contact) => self.judge_boot(*node, *contact),
            Event::Deliver(place) => self.judge_deliver(*place),
            Event::Lose(place) => self.judge_place(*place),
            Event::Repeat(place) => self.judge_deliver(*place),
            Event::Crash(node) => self.judge_crash(*node),
            Event::CrashReport(node, crashed) => self.judge_crash_report(*node, *crashed),
            Event::Shuffle(node) => self.judge_shuffle(*node),
            Event::Broadcast(node, payload) => self.judge_broadcast(*node, payload.as_slice()),
            Event::Timer(node, id) => self.judge_timer(*node, *id),
            Event::Snapshot => Ok(()),
        }
    }

    /// The live node with this id, or why it is not alive.
    fn live_or_fault(&self, id: NodeId) -> Result<&Peer, NetFault>
        ensures ok { IfOk result (λ p. LivesAs self.now.net id p.now) }
        ensures err { IfErr result (λ f. IsAbsent self.now.net id f) }
    {
        match self.nodes.get(id) {
            Some(Member::Live(peer)) => Ok(peer.state()),
            Some(Member::Gone) => Err(NetFault::CrashedNode),
            None => Err(NetFault::UnknownNode),
        }
    }

    /// Refuses if there is no room for the packets of one step (15).
    #[tactic(auto, using(crate::proofs::Steps::Refusing::live_then, crate::proofs::Steps::Refusing::absent_then))]
    fn judge_places(&self) -> Result<(), NetFault>
        ensures { PlacesLast self.now.net (fault_in result) }
    {
        if self.packets.len() + STEP_PACKETS > self.params.scale().most_packets() {
            return Err(NetFault::TooManyPackets);
        }
        Ok(())
    }

    /// The first applicable refusal of a boot.
    #[tactic(auto, using(crate::proofs::Steps::Refusing::live_then, crate::proofs::Steps::Refusing::absent_then))]
    fn judge_boot(&self, node: NodeId, contact: Option<NodeId>) -> Result<(), NetFault>
        ensures { EventJudged self.now.net (Boot node contact) (fault_in result) }
    {
        if self.nodes.get(node).is_some() {
            return Err(NetFault::UsedId);
        }
        if let Some(contact) = contact {
            self.live_or_fault(contact)?;
        }
        self.judge_birth()
    }

    /// Refuses if as many nodes were born as may be (13), 256 or in a large world 32,768, or there is no room for
    /// packets.
    fn judge_birth(&self) -> Result<(), NetFault>
        ensures { BirthLast self.now.net (fault_in result) }
    {
        if self.nodes.len() >= self.params.scale().most_born() {
            return Err(NetFault::TooManyNodes);
        }
        self.judge_places()
    }

    /// Refuses if there is no packet at a place (14).
    #[tactic(auto, using(crate::proofs::Steps::Refusing::live_then, crate::proofs::Steps::Refusing::absent_then))]
    fn judge_place(&self, place: u32) -> Result<(), NetFault>
        ensures { EventJudged self.now.net (Lose place) (fault_in result) }
    {
        if place as usize >= self.packets.len() {
            return Err(NetFault::NoSuchPacket);
        }
        Ok(())
    }

    /// The first applicable refusal of a delivery or a repetition.
    #[tactic(auto, using(crate::proofs::Steps::Refusing::live_then, crate::proofs::Steps::Refusing::absent_then))]
    fn judge_deliver(&self, place: u32) -> Result<(), NetFault>
        ensures { EventJudged self.now.net (Deliver place) (fault_in result) }
    {
        if place as usize >= self.packets.len() {
            return Err(NetFault::NoSuchPacket);
        }
        self.judge_places()
    }

    /// The first applicable refusal of a crash.
    #[tactic(auto, using(crate::proofs::Steps::Refusing::live_then, crate::proofs::Steps::Refusing::absent_then))]
    fn judge_crash(&self, node: NodeId) -> Result<(), NetFault>
        ensures { EventJudged self.now.net (Crash node) (fault_in result) }
    {
        self.live_or_fault(node)?;
        Ok(())
    }

    /// The first applicable refusal of a crash report.
    #[tactic(auto, using(crate::proofs::Steps::Refusing::live_then, crate::proofs::Steps::Refusing::absent_then))]
    fn judge_crash_report(&self, node: NodeId, crashed: NodeId) -> Result<(), NetFault>
        ensures { EventJudged self.now.net (CrashReport node crashed) (fault_in result) }
    {
        self.live_or_fault(node)?;
        match self.nodes.get(crashed) {
            Some(Member::Live(_)) => Err(NetFault::NotCrashed),
            Some(Member::Gone) => self.judge_places(),
            None => Err(NetFault::UnknownNode),
        }
    }

    /// The first applicable refusal of a shuffle.
    #[tactic(auto, using(crate::proofs::Steps::Refusing::live_then, crate::proofs::Steps::Refusing::absent_then))]
    fn judge_shuffle(&self, node: NodeId) -> Result<(), NetFault>
        ensures { EventJudged self.now.net (Shuffle node) (fault_in result) }
    {
        self.live_or_fault(node)?;
        self.judge_places()
    }

    /// The first applicable refusal of a broadcast.
    #[tactic(auto, using(crate::proofs::Steps::Refusing::live_then, crate::proofs::Steps::Refusing::absent_then))]
    fn judge_broadcast(&self, node: NodeId, payload: &[u8]) -> Result<(), NetFault>
        ensures { EventJudged self.now.net (Broadcast node payload.now) (fault_in result) }
    {
        let peer = self.live_or_fault(node)?;
        if payload.len() > MOST_PAYLOAD as usize {
            return Err(NetFault::PayloadTooLong);
        }
        if peer.made() >= MOST_BROADCASTS {
            return Err(NetFault::TooManyMessages);
        }
        self.judge_places()
    }

    /// The first applicable refusal of a timer.
    #[tactic(auto, using(crate::proofs::Steps::Refusing::live_then, crate::proofs::Steps::Refusing::absent_then))]
    fn judge_timer(&self, node: NodeId, id: MsgId) -> Result<(), NetFault>
        ensures { EventJudged self.now.net (Timer node id) (fault_in result) }
    {
        let peer = self.live_or_fault(node)?;
        if !peer.has_timer(id) {
            return Err(NetFault::NoTimer);
        }
        self.judge_places()
    }
}
