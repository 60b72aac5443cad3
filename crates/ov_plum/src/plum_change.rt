use crate::held_message::Held;
use crate::step_effects::Spread;
use ov_ids::{MsgId, NodeId};

/// The planned change of a node's part of Plumtree.
#[derive(Drop)]
pub enum PlumChange {
    /// Nothing.
    Nothing,
    /// A broadcast of the node's own is held, and the next one has this number.
    Makes { id: MsgId, held: Held, next: u32 },
    /// A message is held, the neighbour that sent it becomes eager, the notes of it go, and its timer stops.
    Holds { id: MsgId, held: Held, from: NodeId },
    /// A neighbour becomes eager.
    Eager(NodeId),
    /// A neighbour becomes lazy.
    Lazy(NodeId),
    /// A message is waited for: the node that announced it is noted, and its timer runs.
    Awaits { id: MsgId, from: NodeId },
    /// A message is asked for: its oldest note goes, and the sender of that note becomes eager.
    Asks { id: MsgId, from: NodeId },
    /// The notes of an id go, and its timer stops.
    Clears(MsgId),
}

/// A planned step of a node's part of Plumtree: its effects, and the planned change.
#[derive(Drop)]
pub struct PlumPlan {
    pub spread: Spread,
    pub plum_change: PlumChange,
}
