ghost use Rattle.std.specs.Prelude.{◌≡◌, ◌<◌, length, IfErr, IfOk, OnOk, Some};
ghost use Rattle.ov_grow.specs.Faults.{IsFull};
ghost use Rattle.ov_grow.specs.Turns.{Arrives, HasNoPackets, IsDelivered, IsTurnOf, MayBeRepeated, RunOut, Turn};
ghost use Rattle.ov_grow.specs.Turns.{TurnsUpTo};
ghost use Rattle.ov_grow.specs.Code.Standing.{Fails, Goes, IsNoWay, IsTold, MayBeTold, growth_of};

use crate::fault::GrowFault;
use crate::growth_in_progress::Growing;
use crate::phase_rules::PhaseRules;
use ov_grow_options::Order;
use ov_ids::{NodeId, OutOfMemory};
use ov_net::Packet;
use ov_script::Act;
use std::alloc::Global;

impl Growing {
    /// A turn of a packet. It is refused only if the journal is full (16), too few places for packets are free (15), or
    /// memory ran out (99).
    pub(crate) fn turn(&mut self, rules: &PhaseRules) -> Result<(), GrowFault>
        requires { ¬ HasNoPackets (growth_of self.old) }
        ensures goes { OnOk result (Goes (Turn rules.now) self.old self.new) }
        ensures refused { IfErr result (IsNoWay (Turn rules.now) self.old) }
        ensures full { IfErr result IsFull }
    {
        let place = self.next_place(rules.order);
        if self.choices.comes_true(rules.loss.get()) {
            return self.act(Act::Lose(place));
        }
        self.arrive(place, rules)
    }

    /// The place of the packet whose turn it is.
    fn next_place(&mut self, order: Order) -> u32
        requires { ¬ HasNoPackets (growth_of self.old) }
        ensures goes { Goes (λ s u. IsTurnOf order s result u) self.old self.new }
        ensures within { result < length self.new.recording.core.world.net.packets }
    {
        match order {
            Order::Oldest => 0,
            Order::Random => {
                let count = self.packets();
                self.choices.one_of(count) as u32
            }
        }
    }

    /// Delivers a packet that is not lost. It may be repeated first.
    fn arrive(&mut self, place: u32, rules: &PhaseRules) -> Result<(), GrowFault>
        requires { place < length self.old.recording.core.world.net.packets }
        ensures goes { OnOk result (Goes (Arrives rules.now place) self.old self.new) }
        ensures refused { IfErr result (IsNoWay (Arrives rules.now place) self.old) }
        ensures full { IfErr result IsFull }
    {
        self.may_repeat(place, rules)?;
        self.deliver(place, rules)
    }

    /// Repeats a packet with the chance of a repetition.
    fn may_repeat(&mut self, place: u32, rules: &PhaseRules) -> Result<(), GrowFault>
        requires { place < length self.old.recording.core.world.net.packets }
        ensures goes { OnOk result (Goes (MayBeRepeated rules.now place) self.old self.new) }
        ensures refused { IfErr result (IsNoWay (MayBeRepeated rules.now place) self.old) }
        ensures full { IfErr result IsFull }
    {
        if self.choices.comes_true(rules.repeat.get()) {
            return self.act(Act::Repeat(place));
        }
        Ok(())
    }

    /// Delivers a packet. Its sender may be told that this failed.
    fn deliver(&mut self, place: u32, rules: &PhaseRules) -> Result<(), GrowFault>
        requires { place < length self.old.recording.core.world.net.packets }
        ensures goes { OnOk result (Goes (IsDelivered rules.now place) self.old self.new) }
        ensures refused { IfErr result (IsNoWay (IsDelivered rules.now place) self.old) }
        ensures full { IfErr result IsFull }
    {
        if !rules.tells_crashes {
            return self.act(Act::Deliver(place));
        }
        let failed = self.failed_connection(place)?;
        self.act(Act::Deliver(place))?;
        self.tell(failed)
    }

    /// Tells a sender that the receiver of its packet crashed, if there is one to be told.
    fn tell(&mut self, failed: Option<(NodeId, NodeId)>) -> Result<(), GrowFault>
        requires { MayBeTold failed (growth_of self.old) }
        ensures goes { OnOk result (Goes (IsTold failed) self.old self.new) }
        ensures refused { IfErr result (IsNoWay (IsTold failed) self.old) }
        ensures full { IfErr result IsFull }
    {
        match failed {
            Some((sender, receiver)) => self.act(Act::CrashReport(sender, receiver)),
            None => Ok(()),
        }
    }

    /// The sender and the receiver of the packet at a place, if the receiver has crashed and the sender lives.
    /// OutOfMemory (99) is returned if an allocation was refused.
    fn failed_connection(&self, place: u32) -> Result<Option<(NodeId, NodeId)>, OutOfMemory>
        ensures { IfOk result (λ failed. place < length self.now.recording.core.world.net.packets
            → Fails (growth_of self.now) place failed) }
    {
        let Some(packet) = self.world().packets().get(place as usize) else {
            return Ok(None);
        };
        let receiver = packet.to();
        if !self.has_crashed(receiver) {
            return Ok(None);
        }
        let sender = sender_of(self.alloc, packet)?;
        if !self.is_live(sender) {
            return Ok(None);
        }
        Ok(Some((sender, receiver)))
    }

    /// Packets run out.
    pub(crate) fn run_out(&mut self, rules: &PhaseRules) -> Result<(), GrowFault>
        ensures goes { OnOk result (Goes (RunOut rules.now) self.old self.new) }
        ensures refused { IfErr result (IsNoWay (RunOut rules.now) self.old) }
        ensures full { IfErr result IsFull }
    {
        while self.packets() > 0 {
            self.turn(rules)?;
        }
        Ok(())
    }

    /// So many turns, or fewer if no packet is left.
    pub(crate) fn turns(&mut self, most: u32, rules: &PhaseRules) -> Result<(), GrowFault>
        ensures goes { OnOk result (Goes (TurnsUpTo rules.now most) self.old self.new) }
        ensures refused { IfErr result (IsNoWay (TurnsUpTo rules.now most) self.old) }
        ensures full { IfErr result IsFull }
    {
        for _turn in 0..most {
            if self.packets() == 0 {
                return Ok(());
            }
            self.turn(rules)?;
        }
        Ok(())
    }
}

/// The node that sent a packet. OutOfMemory (99) is returned if an allocation was refused.
fn sender_of(alloc: Global, packet: &Packet) -> Result<NodeId, OutOfMemory>
    ensures { IfOk result (λ sender. sender ≡ packet.now.1.from) }
{
    match ov_wire::decode(alloc, packet.bytes()) {
        Ok(message) => Ok(message.from),
        Err(_) => Err(OutOfMemory),
    }
}
