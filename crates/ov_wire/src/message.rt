ghost use Rattle.std.specs.Prelude.{◌≡◌, IfOk, IsErr};
ghost use Rattle.ov_wire.specs.Messages.{HasList, kind_of};

use ov_ids::{MsgId, NodeId, OutOfMemory, Seq};
use std::alloc::Global;

/// The last kind of a message. (Chosen here.)
pub(crate) const MOST_KIND: u8 = 12;

/// The greatest time to live of a message on a random walk. (Chosen here.)
pub const MOST_TTL: u8 = 15;

/// The most ids that a list may have. (Chosen here.)
pub const MOST_IDS: u8 = 17;

/// The most bytes that a payload may have. (Chosen here.)
pub const MOST_PAYLOAD: u16 = 1024;

/// A message, from its sender.
#[derive(Debug, Drop)]
pub struct Message {
    pub from: NodeId,
    pub body: Body,
}

/// What a message says, by its kind. The kinds up to `ShuffleReply` are HyParView's, but `Joined` and `NeighborReply`,
/// which are chosen here. The others are Plumtree's.
#[derive(Debug, Drop)]
pub enum Body {
    /// The sender asks to join the overlay.
    Join,
    /// A new node joins. A random walk hands this on, with `ttl` steps left: 0 to 15.
    ForwardJoin {
        node: NodeId,
        ttl: u8,
    },
    /// The sender added the receiver, which joins, to its active view.
    Joined,
    /// The sender asks to be a neighbour, with high or low priority.
    Neighbor {
        high: bool,
    },
    /// The answer to a request to be a neighbour.
    NeighborReply {
        accepted: bool,
    },
    /// The receiver is not, or no longer, in the sender's active view.
    Disconnect,
    /// A sample of the origin's views, at most 17 ids. A random walk hands it on, with `ttl` steps left: 0 to 15.
    Shuffle {
        origin: NodeId,
        ttl: u8,
        ids: Seq<NodeId>,
    },
    /// The answer to `Shuffle`: a sample of at most 17 ids.
    ShuffleReply {
        ids: Seq<NodeId>,
    },
    /// A broadcast with a payload of at most 1,024 bytes, after `round` hops.
    Gossip {
        id: MsgId,
        round: u16,
        payload: Seq<u8>,
    },
    /// The sender has this broadcast.
    IHave {
        id: MsgId,
    },
    /// The sender asks for this broadcast, and to be an eager neighbour.
    Graft {
        id: MsgId,
    },
    /// The sender asks to be a lazy neighbour.
    Prune,
}

impl Body {
    /// An equal body. OutOfMemory (99) if an allocation is refused, and only at the kinds 7, 8 and 9, which have a
    /// list or a payload.
    pub fn copy(&self, alloc: Global) -> Result<Body, OutOfMemory>
        ensures ok { IfOk result (λ body. body ≡ self.now) }
        ensures memory { IsErr result → HasList (kind_of self.now) }
    {
        Ok(match self {
            Body::Join => Body::Join,
            Body::ForwardJoin { node, ttl } => Body::ForwardJoin {
                node: *node,
                ttl: *ttl,
            },
            Body::Joined => Body::Joined,
            Body::Neighbor { high } => Body::Neighbor { high: *high },
            Body::NeighborReply { accepted } => Body::NeighborReply {
                accepted: *accepted,
            },
            Body::Disconnect => Body::Disconnect,
            Body::Shuffle { origin, ttl, ids } => {
                let ids = ids.copy(alloc)?;
                Body::Shuffle {
                    origin: *origin,
                    ttl: *ttl,
                    ids,
                }
            }
            Body::ShuffleReply { ids } => {
                Body::ShuffleReply {
                    ids: ids.copy(alloc)?,
                }
            }
            Body::Gossip { id, round, payload } => {
                let payload = payload.copy(alloc)?;
                Body::Gossip {
                    id: *id,
                    round: *round,
                    payload,
                }
            }
            Body::IHave { id } => Body::IHave { id: *id },
            Body::Graft { id } => Body::Graft { id: *id },
            Body::Prune => Body::Prune,
        })
    }
}

impl Message {
    /// An equal message. OutOfMemory (99) if an allocation is refused, and only at the kinds 7, 8 and 9, which have
    /// a list or a payload.
    pub fn copy(&self, alloc: Global) -> Result<Message, OutOfMemory>
        ensures ok { IfOk result (λ m. m ≡ self.now) }
        ensures memory { IsErr result → HasList (kind_of self.now.body) }
    {
        Ok(Message {
            from: self.from,
            body: self.body.copy(alloc)?,
        })
    }
}
