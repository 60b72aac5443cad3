ghost use Rattle.std.specs.Prelude.{◌≡◌, ◌<◌, ◌≤◌, ℕ, List, [], None, Some, IfOk, length, slice_get};
ghost use Rattle.std.specs.Option.{option_copied};
ghost use Rattle.std.specs.FinMap as map;
ghost use Rattle.ov_wire.specs.Messages.{most_payload};
ghost use Rattle.ov_net.specs.Code.Effects.{AreEffects, HaveRoom, SendFew};
ghost use Rattle.ov_net.specs.Net.{LivesAs, IsGone};
ghost use Rattle.ov_net.specs.Refusals.{MayHappen, IsBorn, MayBroadcast, HasTimer};
ghost use Rattle.ov_net.specs.declared.event.Event.TheVariants.{Boot, Deliver, Lose, Repeat, Crash};
ghost use Rattle.ov_net.specs.declared.event.Event.TheVariants.{CrashReport, Shuffle, Broadcast, Timer};

use crate::event::Event;
use crate::journal_entry_and_changes::Change;
use crate::member::Member;
use crate::node_planning::{effects_of_birth, effects_of_input};
use crate::packet::Packet;
use crate::planned_effects::{Effects, NodeChange};
use crate::world::World;
use ov_ids::{MsgId, NodeId, OutOfMemory, Seq};
use ov_peer::{Input, Peer};
use ov_words::Words;

impl World {
    /// The effects of an event to which no refusal applies. The world is not changed.
    #[inline(always)]
    pub(crate) fn effects_of(&self, event: &Event, words: &Words) -> Result<Effects, OutOfMemory>
        requires { MayHappen self.now.net (length self.now.journal) event.now }
        ensures effects { IfOk result (AreEffects self.now.net event.now words.now) }
        ensures few { IfOk result (HaveRoom self.now.net) }
    {
        match event {
            Event::Boot(node, contact) => self.effects_of_boot(*node, *contact, words),
            Event::Deliver(place) => self.effects_of_deliver(*place, words),
            Event::Lose(place) => self.effects_of_lose(*place),
            Event::Repeat(place) => self.effects_of_repeat(*place),
            Event::Crash(node) => self.effects_of_crash(*node),
            Event::CrashReport(node, crashed) => self.effects_of_crash_report(
                *node, *crashed, words,
            ),
            Event::Shuffle(node) => self.effects_of_shuffle(*node, words),
            Event::Broadcast(node, payload) => self.effects_of_broadcast(*node, payload, words),
            Event::Timer(node, id) => self.effects_of_timer(*node, *id, words),
            Event::Snapshot => Ok(self.packet_effects(None, Vec::new(self.alloc))),
        }
    }

    /// A live node.
    fn live_peer(&self, node: NodeId) -> &Peer
        requires born { IsBorn self.now.net node }
        requires live { ¬ IsGone self.now.net node }
        ensures { LivesAs self.now.net node result.now }
    {
        match self.member(node) {
            Some(Member::Live(peer)) => peer.state(),
            _ => unreachable!(),
        }
    }

    /// The node with this id, if it was born.
    fn member(&self, node: NodeId) -> Option<&Member>
        ensures { option_copied result ≡ map.get self.now.net.nodes node }
    {
        self.nodes.get(node)
    }

    /// The packet at a place.
    fn packet_at(&self, place: u32) -> &Packet
        requires { place < length self.now.net.packets }
        ensures { slice_get self.now.net.packets place ≡ Some result.now }
    {
        match self.packets.get(place as usize) {
            Some(packet) => packet,
            None => unreachable!(),
        }
    }

    /// The effects by which no node changes. The packet at the named place, if there is one, is taken out, and more
    /// packets go last.
    #[inline(always)]
    fn packet_effects(&self, taken: Option<usize>, packets: Vec<Packet>) -> Effects
        ensures { result ≡ record { taken = taken; node = None; packets = packets; changes = []; delivery = None } }
    {
        Effects {
            taken,
            node: None,
            packets,
            changes: Seq::new(Vec::new(self.alloc)),
            delivery: None,
        }
    }

    /// The effects of a birth: the new node boots.
    fn effects_of_boot(
        &self,
        node: NodeId,
        contact: Option<NodeId>,
        words: &Words,
    ) -> Result<Effects, OutOfMemory>
        requires { map.get self.now.net.nodes node ≡ None }
        ensures effects { IfOk result (AreEffects self.now.net (Boot node contact) words.now) }
        ensures few { IfOk result SendFew }
    {
        effects_of_birth(self.alloc, node, self.params, contact, words)
    }

    /// The effects of a delivery: the packet is taken out, and its receiver, if it is alive, handles the message.
    #[inline(always)]
    fn effects_of_deliver(&self, place: u32, words: &Words) -> Result<Effects, OutOfMemory>
        requires { place < length self.now.net.packets }
        ensures effects { IfOk result (AreEffects self.now.net (Deliver place) words.now) }
        ensures few { IfOk result SendFew }
    {
        let packet = self.packet_at(place);
        let to = packet.to();
        let taken = Some(place as usize);
        match self.member(to) {
            Some(Member::Live(peer)) => {
                let input = Input::Receive(packet.message(self.alloc)?);
                effects_of_input(self.alloc, to, taken, peer.state(), input, words)
            }
            Some(Member::Gone) => Ok(self.packet_effects(taken, Vec::new(self.alloc))),
            None => Ok(self.packet_effects(taken, Vec::new(self.alloc))),
        }
    }

    /// The effects of a loss: the packet is taken out.
    fn effects_of_lose(&self, place: u32) -> Result<Effects, OutOfMemory>
        requires { place < length self.now.net.packets }
        ensures effects { IfOk result (λ b. (words : List ℕ) → AreEffects self.now.net (Lose place) words b) }
        ensures none { IfOk result (λ b. b.packets.items ≡ []) }
    {
        Ok(self.packet_effects(Some(place as usize), Vec::new(self.alloc)))
    }

    /// The effects of a repetition: an equal packet goes last.
    fn effects_of_repeat(&self, place: u32) -> Result<Effects, OutOfMemory>
        requires { place < length self.now.net.packets }
        ensures effects { IfOk result (λ b. (words : List ℕ) → AreEffects self.now.net (Repeat place) words b) }
        ensures few { IfOk result SendFew }
    {
        let mut packets = Vec::with_capacity(self.alloc, 1)?;
        packets.push(self.packet_at(place).copy()?)?;
        Ok(self.packet_effects(None, packets))
    }

    /// The effects of a crash: a live node is gone.
    fn effects_of_crash(&self, node: NodeId) -> Result<Effects, OutOfMemory>
        requires born { IsBorn self.now.net node }
        requires live { ¬ IsGone self.now.net node }
        ensures effects { IfOk result (λ b. (words : List ℕ) → AreEffects self.now.net (Crash node) words b) }
        ensures none { IfOk result (λ b. b.packets.items ≡ []) }
    {
        let mut changes = Vec::with_capacity(self.alloc, 1)?;
        changes.push(Change::Gone(node))?;
        Ok(Effects {
            taken: None,
            node: Some((node, NodeChange::Crashes)),
            packets: Vec::new(self.alloc),
            changes: Seq::new(changes),
            delivery: None,
        })
    }

    /// The effects of a crash report: a node's crash is reported to a live node.
    fn effects_of_crash_report(
        &self,
        node: NodeId,
        crashed: NodeId,
        words: &Words,
    ) -> Result<Effects, OutOfMemory>
        requires born { IsBorn self.now.net node }
        requires live { ¬ IsGone self.now.net node }
        requires gone { IsGone self.now.net crashed }
        ensures effects { IfOk result (AreEffects self.now.net (CrashReport node crashed) words.now) }
        ensures few { IfOk result SendFew }
    {
        let peer = self.live_peer(node);
        effects_of_input(
            self.alloc,
            node,
            None,
            peer,
            Input::CrashReport(crashed),
            words,
        )
    }

    /// The effects of a shuffle: a live node starts one.
    fn effects_of_shuffle(&self, node: NodeId, words: &Words) -> Result<Effects, OutOfMemory>
        requires born { IsBorn self.now.net node }
        requires live { ¬ IsGone self.now.net node }
        ensures effects { IfOk result (AreEffects self.now.net (Shuffle node) words.now) }
        ensures few { IfOk result SendFew }
    {
        let peer = self.live_peer(node);
        effects_of_input(self.alloc, node, None, peer, Input::Shuffle, words)
    }

    /// The effects of a broadcast: a live node broadcasts a payload of at most 1,024 bytes.
    fn effects_of_broadcast(
        &self,
        node: NodeId,
        payload: &Seq<u8>,
        words: &Words,
    ) -> Result<Effects, OutOfMemory>
        requires born { IsBorn self.now.net node }
        requires live { ¬ IsGone self.now.net node }
        requires payload { length payload.now ≤ most_payload }
        requires made { MayBroadcast self.now.net node }
        ensures effects { IfOk result (AreEffects self.now.net (Broadcast node payload.now) words.now) }
        ensures few { IfOk result SendFew }
    {
        let peer = self.live_peer(node);
        let input = Input::Broadcast(payload.copy(self.alloc)?);
        effects_of_input(self.alloc, node, None, peer, input, words)
    }

    /// The effects of a timer: it fires at a live node.
    fn effects_of_timer(
        &self,
        node: NodeId,
        id: MsgId,
        words: &Words,
    ) -> Result<Effects, OutOfMemory>
        requires born { IsBorn self.now.net node }
        requires live { ¬ IsGone self.now.net node }
        requires timer { HasTimer self.now.net node id }
        ensures effects { IfOk result (AreEffects self.now.net (Timer node id) words.now) }
        ensures few { IfOk result SendFew }
    {
        let peer = self.live_peer(node);
        effects_of_input(self.alloc, node, None, peer, Input::Timer(id), words)
    }
}
