ghost use Rattle.std.specs.Prelude.{◌≡◌, ◌+◌, IfOk};
ghost use Rattle.ov_grow.specs.MessageCosts.{sent_of};
ghost use Rattle.ov_grow.specs.Code.Counting.{one_more, reached_more};

use ov_ids::{MsgId, OutOfMemory};

/// What a broadcast cost.
#[derive(Clone, Copy)]
pub struct MessageCost {
    /// The id of its message.
    pub id: MsgId,
    /// How many nodes live.
    pub live: u32,
    /// How many of them hold the message.
    pub delivered: u32,
    /// The largest round with which one holds it.
    pub hops: u32,
    /// How many GOSSIP with its id were sent.
    pub gossip: u32,
    /// How many IHAVE with its id.
    pub ihave: u32,
    /// How many GRAFT with its id.
    pub graft: u32,
    /// How many PRUNE while no other broadcast was made.
    pub prune: u32,
}

impl MessageCost {
    /// How many messages of a kind were sent.
    pub fn sent(&self, kind: CountedKind) -> u32
        ensures { result ≡ sent_of kind self.now }
    {
        match kind {
            CountedKind::Gossip => self.gossip,
            CountedKind::Ihave => self.ihave,
            CountedKind::Graft => self.graft,
            CountedKind::Prune => self.prune,
        }
    }
}

/// A kind of message that is counted.
#[derive(Clone, Copy)]
pub enum CountedKind {
    Gossip,
    Ihave,
    Graft,
    Prune,
}

/// How many messages of each kind were sent for a broadcast.
#[derive(Clone, Copy)]
pub(crate) struct MessageCounts {
    pub(crate) gossip: u32,
    pub(crate) ihave: u32,
    pub(crate) graft: u32,
    pub(crate) prune: u32,
}

impl MessageCounts {
    /// No message.
    pub(crate) const NONE: MessageCounts = MessageCounts {
        gossip: 0,
        ihave: 0,
        graft: 0,
        prune: 0,
    };

    /// One message more of a kind. OutOfMemory (99) is returned if that is past 32 bits.
    pub(crate) fn with(self, kind: CountedKind) -> Result<MessageCounts, OutOfMemory>
        ensures { IfOk result (λ counts. counts ≡ one_more kind self) }
    {
        let mut more = self;
        match kind {
            CountedKind::Gossip => more.gossip = next(self.gossip)?,
            CountedKind::Ihave => more.ihave = next(self.ihave)?,
            CountedKind::Graft => more.graft = next(self.graft)?,
            CountedKind::Prune => more.prune = next(self.prune)?,
        }
        Ok(more)
    }
}

/// How many nodes a message reached.
#[derive(Clone, Copy)]
pub(crate) struct NodesReached {
    /// How many nodes were looked at.
    pub(crate) live: u32,
    /// How many of them hold the message.
    pub(crate) delivered: u32,
    /// The largest round with which one holds it.
    pub(crate) hops: u32,
}

impl NodesReached {
    /// No node.
    pub(crate) const NONE: NodesReached = NodesReached {
        live: 0,
        delivered: 0,
        hops: 0,
    };

    /// One node more, which holds the message with this round, or does not hold it. OutOfMemory (99) is returned if
    /// that is past 32 bits.
    pub(crate) fn with(self, round: Option<u16>) -> Result<NodesReached, OutOfMemory>
        ensures { IfOk result (λ reached. reached ≡ reached_more round self) }
    {
        let live = next(self.live)?;
        match round {
            Some(round) => Ok(NodesReached {
                live,
                delivered: next(self.delivered)?,
                hops: self.hops.max(u32::from(round)),
            }),
            None => Ok(NodesReached { live, ..self }),
        }
    }
}

/// The next number. OutOfMemory (99) is returned if it is past 32 bits.
pub(crate) fn next(number: u32) -> Result<u32, OutOfMemory>
    ensures { IfOk result (λ more. more ≡ number + 1) }
{
    match number.checked_add(1) {
        Some(more) => Ok(more),
        None => Err(OutOfMemory),
    }
}
