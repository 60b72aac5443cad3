ghost use Rattle.std.specs.Prelude.{◌≡◌, List, IfOk, None, map};
ghost use Rattle.ov_grow.specs.MessageCosts.{AreCosts, cost_of, made_in, round_at};
ghost use Rattle.ov_grow.specs.Code.Counting.{counted_all, no_counts, no_nodes, reached_all};
ghost use Rattle.ov_grow.specs.Code.Standing.{growth_of};
ghost use Rattle.ov_grow.specs.declared.broadcast_log.BroadcastMark.{BroadcastMark as Told};

use crate::broadcast_log::BroadcastMark;
use crate::growth_in_progress::Growing;
use crate::message_cost::{MessageCost, MessageCounts, NodesReached};
use crate::message_counts::{counts_at, message_counts};
use ov_ids::{MsgId, NodeId, OutOfMemory};

impl Growing {
    /// What the broadcasts since the last snapshot cost, in their order, if a log of them is kept. OutOfMemory (99) is
    /// returned if an allocation was refused, or if a number is past 32 bits.
    pub(crate) fn message_costs(&self) -> Result<Vec<MessageCost>, OutOfMemory>
        ensures { IfOk result (λ costs. AreCosts (growth_of self.now) costs.items) }
    {
        if !self.log.kept {
            return Ok(Vec::new(self.alloc));
        }
        let live = self.live()?;
        self.costs_told(&live, &self.log.marks)
    }

    /// What the broadcasts cost that these marks tell of, among these live nodes.
    fn costs_told(
        &self,
        live: &[NodeId],
        marks: &[BroadcastMark],
    ) -> Result<Vec<MessageCost>, OutOfMemory>
        ensures { IfOk result (λ costs. costs.items
            ≡ map (cost_of self.now.recording.core.world.net live.now marks.now) (made_in marks.now)) }
    {
        let counts = message_counts(self.alloc, marks)?;
        let mut costs = Vec::new(self.alloc);
        for mark in marks {
            if let BroadcastMark::Made(id) = mark {
                costs.push(self.message_cost(live, *id, counts_at(&counts, id))?)?;
            }
        }
        Ok(costs)
    }

    /// What a broadcast cost, of which so much was counted in the marks.
    fn message_cost(
        &self,
        live: &[NodeId],
        id: MsgId,
        counts: MessageCounts,
    ) -> Result<MessageCost, OutOfMemory>
        ensures { IfOk result (λ cost. (marks : List Told) → counts ≡ counted_all id None marks no_counts
            → cost ≡ cost_of self.now.recording.core.world.net live.now marks id) }
    {
        let reached = self.nodes_reached(live, &id)?;
        Ok(MessageCost {
            id,
            live: reached.live,
            delivered: reached.delivered,
            hops: reached.hops,
            gossip: counts.gossip,
            ihave: counts.ihave,
            graft: counts.graft,
            prune: counts.prune,
        })
    }

    /// Which of these nodes a message reached.
    fn nodes_reached(&self, live: &[NodeId], id: &MsgId) -> Result<NodesReached, OutOfMemory>
        ensures { IfOk result
            (λ reached. reached ≡ reached_all self.now.recording.core.world.net id.now live.now no_nodes) }
    {
        let mut reached = NodesReached::NONE;
        for node in live {
            reached = reached.with(self.round_at(*node, id))?;
        }
        Ok(reached)
    }

    /// The round with which a node holds a message, if it lives and holds it.
    fn round_at(&self, node: NodeId, id: &MsgId) -> Option<u16>
        ensures { result ≡ round_at self.now.recording.core.world.net node id.now }
    {
        match self.world().peer(node) {
            Some(peer) => peer.held_round(*id),
            None => None,
        }
    }
}
