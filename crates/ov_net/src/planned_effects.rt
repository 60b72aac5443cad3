ghost use Rattle.std.specs.Prelude.{◌≡◌, IfOk, OnOk, OnErr};
ghost use Rattle.ov_net.specs.Code.Effects.{CanChange, NodeChanges};

use crate::boxed_live_peer::LivePeer;
use crate::boxed_plan::BoxedPlan;
use crate::event::Event;
use crate::journal_entry_and_changes::{Change, Told, copy_delivery};
use crate::member::Member;
use crate::nodes::Nodes;
use crate::packet::Packet;
use ov_ids::{NodeId, OutOfMemory, Seq};
use ov_peer::Delivery;
use ov_words::Words;
use std::alloc::Global;

/// How an event changes a node.
pub(crate) enum NodeChange {
    /// It is born, and this is its state after its first input.
    Born(LivePeer),
    /// It takes an input, and follows this plan.
    Follows(BoxedPlan),
    /// It crashes.
    Crashes,
}

impl Drop for NodeChange {
    /// Drops what it holds. It is written by hand since a call is proved faster than the same drops at each exit.
    fn drop(self) {
        match self {
            NodeChange::Born(_) => {}
            NodeChange::Follows(_) => {}
            NodeChange::Crashes => {}
        }
    }
}

impl NodeChange {
    /// Changes a node: it is born, follows its plan, or crashes. Out of memory, nothing changes.
    #[inline(always)]
    pub(crate) fn make(self, nodes: &mut Nodes, id: NodeId) -> Result<(), OutOfMemory>
        requires { CanChange id self nodes.old }
        ensures ok { OnOk result (NodeChanges id self nodes.old nodes.new) }
        ensures err { OnErr result (nodes.new ≡ nodes.old) }
    {
        match self {
            NodeChange::Born(peer) => nodes.put(id, Member::Live(peer)),
            NodeChange::Follows(plan) => nodes.follow(id, plan),
            NodeChange::Crashes => nodes.put(id, Member::Gone),
        }
    }
}

/// The effects of an event, made before anything changes.
#[derive(Drop)]
pub(crate) struct Effects {
    /// The place of the packet that is taken out.
    pub(crate) taken: Option<usize>,
    /// The node that changes, and how.
    pub(crate) node: Option<(NodeId, NodeChange)>,
    /// The packets that go last.
    pub(crate) packets: Vec<Packet>,
    /// The changes for the journal.
    pub(crate) changes: Seq<Change>,
    /// What a node delivers.
    pub(crate) delivery: Option<Delivery>,
}

impl Effects {
    /// A copy of what the entry of this event, with these random words, is to tell if these are its effects, or out of
    /// memory (99).
    pub(crate) fn told(
        &self,
        alloc: Global,
        event: &Event,
        words: &Words,
    ) -> Result<Told, OutOfMemory>
        ensures { IfOk result (λ t. t ≡ record {
          event = event.now;
          words = words.now;
          changes = self.now.changes;
          delivery = self.now.delivery;
        }) }
    {
        Ok(Told {
            event: event.copy(alloc)?,
            words: words.keep(alloc)?,
            changes: self.changes.copy(alloc)?,
            delivery: copy_delivery(alloc, &self.delivery)?,
        })
    }
}
