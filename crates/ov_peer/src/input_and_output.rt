use ov_ids::{MsgId, NodeId, Seq};
use ov_views::ViewChange;
use ov_wire::Message;

/// An input of a node.
#[derive(Debug, Drop)]
pub enum Input {
    /// The node starts. If it has a contact, it joins by it.
    Boot(Option<NodeId>),
    /// A message comes.
    Receive(Message),
    /// A node is reported to have crashed.
    CrashReport(NodeId),
    /// The node is to start a shuffle.
    Shuffle,
    /// The node is to broadcast a payload.
    Broadcast(Seq<u8>),
    /// The timer of a message fires.
    Timer(MsgId),
}

/// A broadcast that a node delivers.
#[derive(Debug, Drop)]
pub struct Delivery {
    pub node: NodeId,
    pub id: MsgId,
    pub payload: Seq<u8>,
}

/// What a node does in one step: the messages that it sends and their receivers, the changes of its active view, both
/// in order, and what it delivers.
#[derive(Debug, Drop)]
pub struct Output {
    pub sends: Vec<(NodeId, Message)>,
    pub changes: Vec<ViewChange>,
    pub delivered: Option<Delivery>,
}
